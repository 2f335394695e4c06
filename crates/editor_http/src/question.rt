//! What can be asked of a node, as the bytes of a request.
ghost use Rattle.std.specs.Prelude.{◌≡◌, IfOk, string_bytes};
ghost use Rattle.editor_http.specs.Requests.{closing, fields_of, receipt_target, page_target, submit_request};
ghost use Rattle.editor_http.specs.Requests.{get_request, request_with, request_of};

use crate::authority::Authority;
use crate::authorization::authorization;
use http_read::ESCAPED;
use percent_encoding::utf8_percent_encode;
use site_ids::Ticket;
use std::alloc::{AllocError, Global};

/// What can be asked of a node.
#[derive(Clone, Copy)]
pub enum Question<'a> {
    /// To take a command text under a ticket.
    Submit(Ticket, &'a str),
    /// The instance at which a ticket's command is known.
    Receipt(Ticket),
    /// The number of the newest release.
    Newest,
    /// The page of a release for a path.
    Page(u64, &'a str),
}

/// The line that ends a connection.
fn closing(last: bool) -> &'static str
    ensures { result.now ≡ closing last }
{
    if last { "Connection: close\r\n" } else { "" }
}

/// The field lines of each request.
fn fields(alloc: Global, to: &Authority, last: bool) -> Result<String, AllocError>
    ensures { IfOk result (λ lines. string_bytes lines ≡ fields_of to.now last) }
{
    let host = to.host.as_str();
    let login = authorization(alloc, &to.login)?;
    let closing = closing(last);
    format!(in alloc; "Host: {host}\r\n{login}{closing}")
}

/// A submission.
fn submit_request(
    alloc: Global,
    fields: &str,
    ticket: Ticket,
    text: &str,
) -> Result<String, AllocError>
    ensures { IfOk result (λ request. string_bytes request ≡ submit_request fields.now ticket text.now) }
{
    let Ticket { editor, number } = ticket;
    let length = text.len();
    format!(in alloc;
        "POST /_submit/{editor}/{number} HTTP/1.1\r\n{fields}Content-Length: {length}\r\n\r\n{text}"
    )
}

/// A request for a target.
fn get_request(alloc: Global, fields: &str, target: &str) -> Result<String, AllocError>
    ensures { IfOk result (λ request. string_bytes request ≡ get_request fields.now target.now) }
{
    format!(in alloc; "GET {target} HTTP/1.1\r\n{fields}\r\n")
}

fn receipt_target(alloc: Global, ticket: Ticket) -> Result<String, AllocError>
    ensures { IfOk result (λ target. string_bytes target ≡ receipt_target ticket) }
{
    let Ticket { editor, number } = ticket;
    format!(in alloc; "/_ticket/{editor}/{number}")
}

fn page_target(alloc: Global, release: u64, path: &str) -> Result<String, AllocError>
    ensures { IfOk result (λ target. string_bytes target ≡ page_target release path.now) }
{
    let address = utf8_percent_encode(path, ESCAPED);
    format!(in alloc; "/@{release}{address}")
}

impl Question<'_> {
    /// The request with these field lines.
    fn spelled_with(&self, alloc: Global, fields: &str) -> Result<String, AllocError>
        ensures { IfOk result (λ request. string_bytes request ≡ request_with fields.now self.now) }
    {
        match self {
            Question::Submit(ticket, text) => submit_request(alloc, fields, *ticket, text),
            Question::Receipt(ticket) => {
                let target = receipt_target(alloc, *ticket)?;
                get_request(alloc, fields, target.as_str())
            }
            Question::Newest => get_request(alloc, fields, "/_newest"),
            Question::Page(release, path) => {
                let target = page_target(alloc, *release, path)?;
                get_request(alloc, fields, target.as_str())
            }
        }
    }

    /// The bytes of the request to a host. After the last one of a connection the node closes it.
    pub fn spelled(&self, alloc: Global, to: &Authority, last: bool) -> Result<String, AllocError>
        ensures { IfOk result (λ request. string_bytes request ≡ request_of to.now last self.now) }
    {
        let fields = fields(alloc, to, last)?;
        self.spelled_with(alloc, fields.as_str())
    }
}
