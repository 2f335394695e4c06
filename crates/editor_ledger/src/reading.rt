//! A ledger, read back from the text of a file.
ghost use Rattle.std.specs.Prelude.{◌≡◌, ◌≢◌, ◌<◌, ◌≤◌, ◌^◌, ◌∷◌, ◌++◌, ℕ, List, All, codes, decimal};
ghost use Rattle.std.specs.Prelude.{option_map, IfOk, IfErr, OnOk, IsOkAnd, MatchResult};
ghost use Rattle.std.specs.Char.{digit_value};
ghost use Rattle.std.specs.List.{flat_map, fold};
ghost use Rattle.command.specs.Cuts.{after_front};
ghost use Rattle.editor_ledger.specs.Books.{Book, Given};
ghost use Rattle.editor_ledger.specs.Entries.{Item, FitsItem, entry_view, item_text, entered};
ghost use Rattle.editor_ledger.specs.Sizes.{Fits, FitsReleased, FitsText, FitsGiven, IsFile};
ghost use Rattle.editor_ledger.specs.Spelling.{front_lines, released_numbers, counted_text, numbered_text};
ghost use Rattle.editor_ledger.specs.Spelling.{spelled};
ghost use Rattle.editor_ledger.specs.declared.released.Released.{Released};

use crate::fault::LedgerReadFault;
use crate::head::cut;
use crate::ledger::Ledger;
use crate::message::Message;
use crate::past::Past;
use crate::released::Released;
use crate::sent::Sent;
use crate::spelling::LAST;
use std::alloc::Global;

/// What follows the front lines.
#[derive(Clone, Copy)]
enum Entry<'a> {
    Released(Released),
    Message(u64, &'a str),
    Kept(&'a str),
    Past(u64, &'a str),
    Sent(u64, &'a str),
}

// Each function that reads returns what it read, and what follows that. If it refuses, it returns the rest of
// the text from the place where the text is no longer a ledger's.

/// What follows a front.
fn after<'a>(text: &'a str, front: &str) -> Option<&'a str>
    ensures { option_map (λ rest. rest.now) result ≡ after_front front.now text.now }
{
    text.strip_prefix(front)
}

/// The number before the first such character.
fn number(text: &str, at: char) -> Result<(u64, &str), &str>
    requires { at < 128 }
    ensures { (n : ℕ) (more : List ℕ) → Fits n → 10 ≤ digit_value at → text.now ≡ decimal n ++ (at ∷ more)
        → IsOkAnd result (λ p. (p.0 ≡ n) × (p.1.now ≡ more)) }
{
    let Some((number, rest)) = cut(text, at) else {
        return Err(text);
    };
    match number.parse() {
        Ok(number) => Ok((number, rest)),
        Err(_) => Err(text),
    }
}

/// The number of a line that has a word and a blank before it.
fn line<'a>(text: &'a str, word: &str) -> Result<(u64, &'a str), &'a str>
    ensures { (n : ℕ) (more : List ℕ) → Fits n → text.now ≡ word.now ++ (decimal n ++ (10 ∷ more))
        → IsOkAnd result (λ p. (p.0 ≡ n) × (p.1.now ≡ more)) }
{
    match after(text, word) {
        Some(rest) => number(rest, '\n'),
        None => Err(text),
    }
}

/// The release by the numbers of a line; if not `exact`, that one or one before it.
fn released(text: &str, exact: bool) -> Result<(Released, &str), &str>
    ensures { (r : Released) (more : List ℕ) → FitsReleased r → text.now ≡ released_numbers r ++ more
        → r.exact ≡ exact → IsOkAnd result (λ p. (p.0 ≡ r) × (p.1.now ≡ more)) }
{
    let (release, rest) = number(text, ' ')?;
    let (time, rest) = number(rest, ' ')?;
    let (commands, rest) = number(rest, '\n')?;
    let released = Released {
        release,
        time,
        commands,
        exact,
    };
    Ok((released, rest))
}

/// A text after the line of its length, and before a newline.
fn counted(text: &str) -> Result<(&str, &str), &str>
    ensures { (t more : List ℕ) → FitsText t → text.now ≡ counted_text t ++ more
        → IsOkAnd result (λ p. (p.0.now ≡ t) × (p.1.now ≡ more)) }
{
    let (length, rest) = number(text, '\n')?;
    let Some((counted, end)) = rest.split_at_checked(length as usize) else {
        return Err(rest);
    };
    match after(end, "\n") {
        Some(left) => Ok((counted, left)),
        None => Err(rest),
    }
}

/// A number, and a text after its length.
fn numbered(text: &str) -> Result<((u64, &str), &str), &str>
    ensures { (g : Given) (more : List ℕ) → FitsGiven g → text.now ≡ numbered_text g ++ more
        → IsOkAnd result (λ p. (p.0.0 ≡ g.number) × (p.0.1.now ≡ g.text) × (p.1.now ≡ more)) }
{
    let (number, rest) = number(text, ' ')?;
    let (counted, rest) = counted(rest)?;
    Ok(((number, counted), rest))
}

/// The entry at the front of a text.
fn entry_of(text: &str) -> Result<(Entry<'_>, &str), &str>
    ensures { (item : Item) (more : List ℕ) → FitsItem item → text.now ≡ item_text item ++ more
        → IsOkAnd result (λ p. (entry_view p.0 ≡ item) × (p.1.now ≡ more)) }
{
    let Some((word, rest)) = cut(text, ' ') else {
        return Err(text);
    };
    match word {
        "released" => {
            let (released, rest) = released(rest, true)?;
            Ok((Entry::Released(released), rest))
        }
        "released_by" => {
            let (released, rest) = released(rest, false)?;
            Ok((Entry::Released(released), rest))
        }
        "has" => {
            let (text, rest) = counted(rest)?;
            Ok((Entry::Kept(text), rest))
        }
        "told" => {
            let ((number, text), rest) = numbered(rest)?;
            Ok((Entry::Message(number, text), rest))
        }
        "was" => {
            let ((number, text), rest) = numbered(rest)?;
            Ok((Entry::Past(number, text), rest))
        }
        "sent" => {
            let ((number, text), rest) = numbered(rest)?;
            Ok((Entry::Sent(number, text), rest))
        }
        _ => Err(text),
    }
}

/// What the front lines say.
#[derive(Clone, Copy)]
struct Front {
    editor: u32,
    next: u64,
    last_release: u64,
}

/// The front lines of a text.
fn front_of(text: &str) -> Result<(Front, &str), &str>
    ensures { (editor next last_release : ℕ) (more : List ℕ) → editor < 2 ^ 32 → Fits next
        → Fits last_release → text.now ≡ front_lines editor next last_release ++ more
        → IsOkAnd result (λ p. (p.0 ≡ record { editor = editor; next = next; last_release = last_release })
        × (p.1.now ≡ more)) }
{
    let Some(lines) = after(text, "published 2\n") else {
        return Err(text);
    };
    let (editor, rest) = line(lines, "editor ")?;
    let (next, rest) = line(rest, "next ")?;
    let (last_release, rest) = line(rest, "last_release ")?;
    match u32::try_from(editor) {
        Ok(editor) => Ok((
            Front {
                editor,
                next,
                last_release,
            },
            rest,
        )),
        Err(_) => Err(lines),
    }
}

/// The fault of the line where what is left of a text begins.
fn fault_at(text: &str, left: &str) -> LedgerReadFault {
    let read = text.len().saturating_sub(left.len());
    let lines = text
        .as_bytes()
        .iter()
        .take(read)
        .filter(|b| **b == b'\n')
        .count();
    LedgerReadFault::Line(lines.saturating_add(1))
}

impl Ledger {
    fn enter(&mut self, alloc: Global, entry: Entry<'_>) -> Result<(), LedgerReadFault>
        ensures ok { OnOk result (self.new ≡ entered self.old (entry_view entry.entry)) }
        ensures err { IfErr result (λ why. why ≡ LedgerReadFault.OutOfMemory) }
    {
        match entry {
            Entry::Released(released) => self.log.push(released)?,
            Entry::Message(release, text) => {
                let text = String::from_str(alloc, text)?;
                self.messages.push(Message { release, text })?;
            }
            Entry::Kept(text) => self.kept.push(String::from_str(alloc, text)?)?,
            Entry::Past(since, text) => {
                let text = String::from_str(alloc, text)?;
                self.past.push(Past { since, text })?;
            }
            Entry::Sent(number, text) => {
                let text = String::from_str(alloc, text)?;
                self.sent.push(Sent { number, text })?;
            }
        }
        Ok(())
    }

    /// Enters all entries of a text, which follow its front lines, up to the last line. Each entry has at
    /// least one byte.
    fn enter_all(&mut self, alloc: Global, text: &str, entries: &str) -> Result<(), LedgerReadFault>
        ensures { (items : List Item) (more : List ℕ) → All FitsItem items
            → entries.now ≡ flat_map item_text items ++ (codes "end " ++ more)
            → MatchResult result (λ done. self.new ≡ fold entered self.old items)
            (λ why. why ≡ LedgerReadFault.OutOfMemory) }
    {
        let mut rest = entries;
        for _ in 0..entries.len() {
            if after(rest, LAST).is_some() {
                return Ok(());
            }
            match entry_of(rest) {
                Ok((entry, next)) => {
                    self.enter(alloc, entry)?;
                    rest = next;
                }
                Err(left) => return Err(fault_at(text, left)),
            }
        }
        Err(fault_at(text, rest))
    }
}

/// The ledger that a text looks like.
fn parsed(alloc: Global, text: &str) -> Result<Ledger, LedgerReadFault>
    ensures { (book : Book) → IsFile book → spelled book ≡ text.now
        → MatchResult result (λ ledger. ledger ≡ book) (λ why. why ≡ LedgerReadFault.OutOfMemory) }
{
    match front_of(text) {
        Ok((front, rest)) => {
            let mut ledger = Ledger::new(alloc, front.editor);
            ledger.next = front.next;
            ledger.last_release = front.last_release;
            ledger.enter_all(alloc, text, rest)?;
            Ok(ledger)
        }
        Err(left) => Err(fault_at(text, left)),
    }
}

/// How a text differs from the one that spells what it says: in the line with that number, or by its sum.
fn difference(text: &str, spelled: &str) -> LedgerReadFault {
    let body = spelled.rsplit_once(LAST).map_or("", |(body, _)| body);
    if text.starts_with(body) {
        return LedgerReadFault::Sum;
    }
    let same = text
        .as_bytes()
        .iter()
        .zip(spelled.as_bytes())
        .take_while(|(a, b)| a == b)
        .filter(|(a, _)| **a == b'\n')
        .count();
    LedgerReadFault::Line(same.saturating_add(1))
}

impl Ledger {
    /// Checks that a text spells the ledger. If it does not, it differs in a line, or only by its sum.
    fn is_spelled(&self, alloc: Global, text: &str) -> Result<(), LedgerReadFault>
        ensures ok { IfOk result (λ done. spelled self.now ≡ text.now) }
        ensures refused { IfErr result (λ why. why ≢ LedgerReadFault.OutOfMemory
            → spelled self.now ≢ text.now) }
    {
        let again = self.spelled(alloc)?;
        if again.as_str() == text {
            Ok(())
        } else {
            Err(difference(text, again.as_str()))
        }
    }

    /// Reads the text of a file back. Exactly this text spells the ledger that it reads. So another spelling
    /// of a number, or another order of entries, is a fault in the first line that a ledger would spell
    /// otherwise.
    pub fn read(alloc: Global, text: &str) -> Result<Ledger, LedgerReadFault>
        ensures ok { IfOk result (λ ledger. spelled ledger ≡ text.now) }
        ensures refused { IfErr result (λ why. why ≢ LedgerReadFault.OutOfMemory
            → (book : Book) → IsFile book → spelled book ≢ text.now) }
    {
        let ledger = parsed(alloc, text)?;
        ledger.is_spelled(alloc, text)?;
        Ok(ledger)
    }
}
