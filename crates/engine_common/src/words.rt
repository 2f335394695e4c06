//! The words of lines: fronts, nodes and numbers.
ghost use Rattle.std.specs.Prelude.{◌≢◌, ℕ, List, ◌∷◌, ◌++◌, ◌≡◌, ◌<◌, ◌^◌, MatchOption, decimal};
ghost use Rattle.site_ids.specs.Ids.{IsNode};
ghost use Rattle.site_ids.specs.declared.Ticket.{Ticket as AbstractTicket};
ghost use Rattle.engine_common.specs.Cuts.{Lacks};
ghost use Rattle.engine_common.specs.Submissions.{FitsSubmission, joined, numbers};
ghost use Rattle.engine_common.specs.Submissions.{submission_fits, submission_numbers};

use crate::cutting::{MAX_TEXT, cut, read_number};
use site_ids::{Cluster, MAX_NODES, NodeId, Ticket};

/// The numbers of a submission's line.
#[derive(Clone, Copy)]
pub struct SubmissionLine {
    pub node: NodeId,
    pub ticket: Ticket,
    pub text_len: usize,
}

/// What follows a front.
pub fn after<'a>(bytes: &'a [u8], front: &str) -> Option<&'a [u8]>
    ensures { MatchOption result ((rest : List ℕ) → bytes.now ≢ front.now ++ rest)
        (λ rest. bytes.now ≡ front.now ++ rest.now) }
{
    bytes.strip_prefix(front.as_bytes())
}

/// The number of a node of any cluster.
pub fn read_node(word: &[u8]) -> Option<NodeId>
    ensures { MatchOption result ((p : ℕ) → IsNode 9 p → word.now ≢ decimal p)
        (λ p. IsNode 9 p × (word.now ≡ decimal p)) }
{
    let number = u8::try_from(read_number(word)?).ok()?;
    let largest = Cluster::new(MAX_NODES)?;
    largest.node(number)
}

/// The word after a front, and what follows its space.
pub fn word_after<'a>(head: &'a [u8], front: &str) -> Option<(&'a [u8], &'a [u8])>
    ensures { MatchOption result ((word rest : List ℕ) → Lacks 32 word
        → head.now ≢ front.now ++ (word ++ (32 ∷ rest)))
        (λ p. Lacks 32 p.0.now × (head.now ≡ front.now ++ (p.0.now ++ (32 ∷ p.1.now)))) }
{
    cut(after(head, front)?, b' ')
}

/// The node and the number of a line of three words.
pub fn number_at_node(head: &[u8], front: &str) -> Option<(NodeId, u64)>
    ensures { MatchOption result ((p n : ℕ) → IsNode 9 p → n < 2 ^ 64
        → head.now ≢ front.now ++ (decimal p ++ (32 ∷ decimal n)))
        (λ r. IsNode 9 r.0 × (r.1 < 2 ^ 64) × (head.now ≡ front.now ++ (decimal r.0 ++ (32 ∷ decimal r.1)))) }
{
    let (word, number) = word_after(head, front)?;
    let node = read_node(word)?;
    Some((node, read_number(number)?))
}

/// The numbers of a submission, after a front.
pub fn submission_after(head: &[u8], front: &str) -> Option<SubmissionLine>
    ensures { MatchOption result ((p : ℕ) (ticket : AbstractTicket) (len : ℕ) → FitsSubmission p ticket len
        → head.now ≢ front.now ++ joined (numbers p ticket len))
        (λ s. submission_fits s × (head.now ≡ front.now ++ joined (submission_numbers s))) }
{
    let (word, rest) = word_after(head, front)?;
    let (editor, rest) = cut(rest, b' ')?;
    let (number, length_word) = cut(rest, b' ')?;
    let node = read_node(word)?;
    let editor = u32::try_from(read_number(editor)?).ok()?;
    let number = read_number(number)?;
    let text_len = read_number(length_word)?;
    if text_len > MAX_TEXT {
        return None;
    }
    Some(SubmissionLine {
        node,
        ticket: Ticket { editor, number },
        text_len: text_len as usize,
    })
}
