//! What one call reads.

/// The methods that are known (RFC 9110, section 9.3).
#[derive(Clone, Copy, Debug, PartialEq, Eq)]
pub enum Method {
    Get,
    Head,
    Post,
}

/// A request.
#[derive(Drop)]
pub struct Request {
    pub method: Method,
    /// The target's path, percent-decoded once, without the query.
    pub path: String,
    /// Whether the client lets the connection stay: the request is of HTTP/1.1, and no Connection line says
    /// `close`.
    pub keep: bool,
    /// At most 40,000 bytes. A body that came in chunks is here without what is around them.
    pub body: Vec<u8>,
}

/// What came.
#[derive(Drop)]
pub enum Incoming {
    Request(Request),
    /// A request that is refused.
    Refused {
        /// 400, 413, 414, 431 or 501.
        status: u16,
        /// Whether a whole head was read and its method is HEAD, so that the response has no body.
        head: bool,
    },
    /// No request: the input ended before any byte of one.
    Ended,
}
