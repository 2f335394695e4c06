//! What of a body comes next.

/// What of a body comes next (RFC 9112, sections 6 and 7.1).
#[derive(Clone, Copy, Debug, PartialEq, Eq)]
pub enum Awaited {
    /// This many bytes of a body of a stated length.
    Fixed(usize),
    /// The end of a chunk's line.
    Line,
    /// This many bytes of a chunk.
    Chunk(usize),
    /// The end of the line break after a chunk.
    Break,
    /// The end of the field lines after the last chunk.
    Trailer,
}
