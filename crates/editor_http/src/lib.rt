//! What a client asks of a node, and what it reads of the answers (HTTP/1.1, RFC 9112).
//!
//! `question.rt` has the requests to a node as bytes, `authority.rt` who asks and where, `authorization.rt`
//! the line that says so (RFC 7617). `reading.rt` reads the next answer of a connection, `looking.rt` finds
//! one at the front of what was read, and `fields.rt` reads its length. `barred.rt` says whether an answer
//! keeps the client out. Requests may be sent ahead: their answers come in order.
//!
//! Nothing here opens a connection. So the crate is separate from `editor_group`: it is tested without
//! sockets, and proved beside `editor_plan`.
#![tactic(auto)]

mod authority;
mod authorization;
mod barred;
mod fault;
mod fields;
mod looking;
mod node_answer;
mod question;
mod reading;

pub use authority::{Authority, Login, authority_in};
pub use barred::{Barred, barred_by};
pub use fault::NodeAnswerFault;
pub use node_answer::NodeAnswer;
pub use question::Question;
pub use reading::read_answer;
