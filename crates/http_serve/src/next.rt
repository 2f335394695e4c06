//! How a connection goes on.
ghost use Rattle.std.specs.Prelude.{◌≡◌};
ghost use Rattle.http_serve.specs.Exchanges.{next_behind};

/// How a connection goes on after an exchange.
#[derive(Clone, Copy, Debug, Drop, PartialEq, Eq)]
pub enum Next {
    /// The client may send a further request.
    Stays,
    /// The response was the last: the connection is to be closed.
    Closes,
    /// The client sent no more: nothing was read, and nothing was written.
    Ended,
}

impl Next {
    pub(crate) fn behind(stays: bool) -> Next
        ensures { result ≡ next_behind stays }
    {
        if stays { Next::Stays } else { Next::Closes }
    }
}
