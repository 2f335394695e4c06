//! How a path is spelled in a target, and in a `Location` line.
use percent_encoding::{AsciiSet, NON_ALPHANUMERIC, ascii_set};

/// What is escaped of a path: each byte except letters, digits, these marks (RFC 3986, section 2.3), and the
/// slash.
pub const ESCAPED: AsciiSet = ascii_set!(
    NON_ALPHANUMERIC
        .remove(b'-')
        .remove(b'.')
        .remove(b'_')
        .remove(b'~')
        .remove(b'/')
);
