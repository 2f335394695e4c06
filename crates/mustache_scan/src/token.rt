/// The kinds of token. A tag of kind `Delimiters` names other delimiters.
#[derive(Clone, Copy, Debug, PartialEq, Eq)]
pub enum TokenKind {
    Literal,
    Variable,
    Raw,
    Section,
    Inverted,
    End,
    Comment,
    Partial,
    Delimiters,
}

/// A token of a source. Its text is at the byte `place`.
///
/// `inside` is a tag's name, and `indent` is the blanks before a standalone partial's tag. In all other
/// tokens both are empty. `is_alone` says that a tag is standalone: its lines are not part of the literals
/// around it.
#[derive(Clone, Copy, Debug, PartialEq, Eq)]
pub struct Token<'a> {
    pub kind: TokenKind,
    pub inside: &'a str,
    pub place: usize,
    pub text: &'a str,
    pub indent: &'a str,
    pub is_alone: bool,
}
