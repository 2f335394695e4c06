//! Answers HTTP/1.1 requests from a service behind it (RFC 9112).
//!
//! `serve` reads the requests of a connection, asks the service, and writes their responses, whole, over any
//! reader and any writer. `exchange` does so for one request. `Connection` is a connection whose bytes come
//! and go in many steps, so that a server holds many. `Service` is what they ask of the service: pages of
//! releases, receipts, and to handle submissions.
#![tactic(auto)]

mod connection;
mod fault;
mod fixed;
mod front;
mod laws;
mod messages;
mod next;
mod outbox;
mod outcomes;
mod replies;
mod resource;
mod responding;
mod service;
mod serving;
mod submission;

pub use connection::Connection;
pub use fault::ServeFault;
pub use laws::{
    a_talk_alone_is_served, connections_are_talks, exchanges_are_a_connection, farewells_stand,
    one_exchange_more, paths_name_one_resource, talks_stand,
};
pub use next::Next;
pub use outcomes::{ReadOutcome, WriteOutcome, is_early};
pub use service::Service;
pub use serving::{exchange, serve};
pub use submission::{Submission, SubmitFault};
