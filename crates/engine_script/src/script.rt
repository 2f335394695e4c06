//! The lines of a script.
ghost use Rattle.std.specs.Prelude.{◌≡◌, ◌≢◌, ℕ, List, ◌∷◌, ◌++◌, ◌≤◌, MatchOption, [], false};
ghost use Rattle.site_ids.specs.Ids.{IsNode};
ghost use Rattle.site_ids.specs.declared.Ticket.{Ticket as AbstractTicket};
ghost use Rattle.engine_common.specs.Cuts.{Lacks};
ghost use Rattle.engine_common.specs.Founds.{IsFound, IsDecided};
ghost use Rattle.engine_common.specs.Submissions.{joined};
ghost use Rattle.engine_script.specs.Script.{Line as AbstractLine, words, post_words, FitsPost, Fits};
ghost use Rattle.engine_script.specs.Script.{IsTarget, body, spelled, get_line, turns_line, drive_line};
ghost use Rattle.engine_script.specs.ScriptView.{line_view, post_fits, posted_words};

use engine_common::{
    Found, SubmissionLine, after, body_in, cut, number_at_node, read_node, read_number,
    submission_after, word_after,
};
use site_ids::{NodeId, Ticket};

/// How many servers there are.
pub(crate) const SERVERS: u8 = 3;

/// The most bytes of a post's text: as many as a request's body may have.
pub(crate) const MAX_POST: usize = 40_000;

/// The most turns that a line asks for.
pub(crate) const MAX_TURNS: u64 = 1_000;

/// A line, with the words of it that vary.
#[derive(Clone, Copy)]
pub(crate) enum Line<'a> {
    Post {
        node: NodeId,
        ticket: Ticket,
        text: &'a [u8],
    },
    Get {
        node: NodeId,
        target: &'a [u8],
    },
    Turns {
        count: u32,
    },
    Drive {
        node: NodeId,
        turns: u32,
    },
}

/// The words of a post.
fn post_in(head: &[u8]) -> Option<SubmissionLine>
    ensures { MatchOption result ((p : ℕ) (ticket : AbstractTicket) (len : ℕ) → FitsPost p ticket len
        → head.now ≢ joined (post_words p ticket len))
        (λ s. post_fits s × (head.now ≡ joined (posted_words s))) }
{
    let post = submission_after(head, "post ")?;
    if post.node.number() > SERVERS || post.text_len > MAX_POST {
        return None;
    }
    Some(post)
}

fn getting(head: &[u8]) -> Option<(NodeId, &[u8])>
    requires { Lacks 10 head.now }
    ensures { MatchOption result ((p : ℕ) (target : List ℕ) → IsNode SERVERS p → IsTarget target
        → head.now ≢ joined (words (get_line p target)))
        (λ r. IsNode SERVERS r.0 × IsTarget r.1.now × (head.now ≡ joined (words (get_line r.0 r.1.now)))) }
{
    let (word, target) = word_after(head, "get ")?;
    let node = read_node(word)?;
    if node.number() > SERVERS || cut(target, b' ').is_some() {
        return None;
    }
    Some((node, target))
}

fn turning(head: &[u8]) -> Option<u32>
    ensures { MatchOption result ((k : ℕ) → k ≤ MAX_TURNS → head.now ≢ joined (words (turns_line k)))
        (λ k. (k ≤ MAX_TURNS) × (head.now ≡ joined (words (turns_line k)))) }
{
    let count = read_number(after(head, "turns ")?)?;
    if count > MAX_TURNS {
        return None;
    }
    Some(count as u32)
}

fn driving(head: &[u8]) -> Option<(NodeId, u32)>
    ensures { MatchOption result ((p k : ℕ) → IsNode SERVERS p → k ≤ MAX_TURNS
        → head.now ≢ joined (words (drive_line p k)))
        (λ r. IsNode SERVERS r.0 × (r.1 ≤ MAX_TURNS) × (head.now ≡ joined (words (drive_line r.0 r.1)))) }
{
    let (node, turns) = number_at_node(head, "drive ")?;
    if node.number() > SERVERS || turns > MAX_TURNS {
        return None;
    }
    Some((node, turns as u32))
}

/// A line that is not a post, without its newline.
fn plain_line(head: &[u8]) -> Option<Line<'_>>
    requires { Lacks 10 head.now }
    ensures { MatchOption result ((line : AbstractLine) → Fits line → body line ≡ []
        → head.now ≢ joined (words line))
        (λ l. Fits (line_view l) × (body (line_view l) ≡ []) × (head.now ≡ joined (words (line_view l)))) }
{
    if let Some((node, target)) = getting(head) {
        return Some(Line::Get { node, target });
    }
    if let Some(count) = turning(head) {
        return Some(Line::Turns { count });
    }
    if let Some((node, turns)) = driving(head) {
        return Some(Line::Drive { node, turns });
    }
    None
}

/// The post, by what follows the newline after its words.
fn posted(post: SubmissionLine, after: &[u8]) -> Found<'_, Line<'_>>
    requires { post_fits post }
    ensures { IsFound line_view Fits spelled (joined (posted_words post) ++ (10 ∷ after.now)) result }
{
    let SubmissionLine {
        node,
        ticket,
        text_len,
    } = post;
    match body_in(after, text_len) {
        Found::Line(text, rest) => Found::Line(Line::Post { node, ticket, text }, rest),
        Found::Short => Found::Short,
        Found::Bad => Found::Bad,
    }
}

/// The line at the front of the bytes.
pub(crate) fn line_in(bytes: &[u8]) -> Found<'_, Line<'_>>
    ensures { IsFound line_view Fits spelled bytes.now result }
{
    let Some((head, after)) = cut(bytes, b'\n') else {
        return Found::Short;
    };
    if let Some(post) = post_in(head) {
        return posted(post, after);
    }
    match plain_line(head) {
        Some(line) => Found::Line(line, after),
        None => Found::Bad,
    }
}

/// Whether bytes that follow may make a line of these.
pub(crate) fn is_short(bytes: &[u8]) -> bool
    ensures { result ≡ false → IsDecided Fits spelled bytes.now }
{
    matches!(line_in(bytes), Found::Short)
}
