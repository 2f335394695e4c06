ghost use Rattle.std.specs.Prelude.{◌≡◌, ◌==◌, ◌<◌, ◌+◌, ◌^◌, suc, not, length, reverse, count_by};
ghost use Rattle.std.specs.Prelude.{take_while, if◌then◌else◌};
ghost use Rattle.editor_folder.specs.Places.{is_lead, line_of, column_of};

/// A place of a text, as editors show it: both are counted from 1, the column in characters.
#[derive(Clone, Copy, Debug, PartialEq, Eq)]
pub struct Place {
    pub line: usize,
    pub column: usize,
}

/// Whether a byte begins a character.
fn is_lead(b: u8) -> bool
    ensures { result ≡ is_lead b }
{
    b < 128 || 192 <= b
}

fn newlines_in(bytes: &[u8]) -> usize
    ensures { result ≡ count_by (λ b. b == 10) bytes.now }
{
    bytes.iter().filter(|b| **b == b'\n').count()
}

fn leads_in(bytes: &[u8]) -> usize
    ensures { result ≡ count_by is_lead bytes.now }
{
    bytes.iter().filter(|b| is_lead(**b)).count()
}

/// How many characters follow the last newline.
fn characters_behind(bytes: &[u8]) -> usize
    ensures { result ≡ count_by is_lead (take_while (λ b. not (b == 10)) (reverse bytes.now)) }
{
    bytes
        .iter()
        .rev()
        .take_while(|b| **b != b'\n')
        .filter(|b| is_lead(**b))
        .count()
}

/// The place of the byte with this number. A number past the text's end counts as the end.
pub fn place_of(text: &[u8], at: usize) -> Place
    ensures line { result.line ≡ line_of text.now at }
    ensures column { result.column ≡ column_of text.now at }
{
    let before = &text[..at.min(text.len())];
    Place {
        line: newlines_in(before) + 1,
        column: characters_behind(before) + 1,
    }
}

/// The place after a part of a text, by the place before it.
fn place_behind(before: Place, part: &[u8]) -> Place
    requires line { before.line + length part.now < 2 ^ 64 }
    requires column { before.column + length part.now < 2 ^ 64 }
    ensures line { result.line ≡ before.line + count_by (λ b. b == 10) part.now }
    ensures column { result.column ≡ (if count_by (λ b. b == 10) part.now == 0
        then before.column + count_by is_lead part.now
        else suc (count_by is_lead (take_while (λ b. not (b == 10)) (reverse part.now)))) }
{
    let lines = newlines_in(part);
    let column = if lines == 0 {
        before.column + leads_in(part)
    } else {
        characters_behind(part) + 1
    };
    Place {
        line: before.line + lines,
        column,
    }
}

/// The place of the byte with this number, by the place of another byte. If the other comes first, only what
/// is between them is read.
pub(crate) fn place_past(text: &[u8], from: usize, place: Place, at: usize) -> Place
    requires from_line { place.line ≡ line_of text.now from }
    requires from_column { place.column ≡ column_of text.now from }
    ensures line { result.line ≡ line_of text.now at }
    ensures column { result.column ≡ column_of text.now at }
{
    let to = at.min(text.len());
    if to < from {
        return place_of(text, at);
    }
    place_behind(place, &text[from..to])
}
