//! What is at the front of bytes.

/// What is at the front of the bytes that were read so far.
#[derive(Clone, Copy)]
pub enum Found<'a, L> {
    /// A line, and what follows it.
    Line(L, &'a [u8]),
    /// No line yet.
    Short,
    /// No line, whatever follows.
    Bad,
}
