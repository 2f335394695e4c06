//! Which receipt a connection's next request asks for, as its first bytes show.
use crate::comparing::{ensure, same};
use http_read::Counted;
use http_serve::Connection;
use site_ids::Ticket;
use std::process::Abort;

/// What came, and the ticket whose receipt it asks for.
const ROWS: &[(&[u8], Option<Ticket>)] = &[
    (
        b"GET /_ticket/1/5 HTTP/1.1\r\nHost: a\r\n\r\n",
        Some(Ticket {
            editor: 1,
            number: 5,
        }),
    ),
    (
        b"GET /_ticket/0/18446744073709551615 ",
        Some(Ticket {
            editor: 0,
            number: u64::MAX,
        }),
    ),
    (
        b"GET /_ticket/4294967295/0 ",
        Some(Ticket {
            editor: u32::MAX,
            number: 0,
        }),
    ),
    (b"GET /_ticket/4294967296/0 ", None),
    (b"GET /_ticket/1/5", None),
    (b"GET /_ticket/1/05 ", None),
    (b"GET /_ticket/1/5/ ", None),
    (b"GET /_ticket/1/5?x ", None),
    (b"GET /_ticket/ 1/5 ", None),
    (b"GET /%5Fticket/1/5 ", None),
    (b"GET /_submit/1/5 ", None),
    (b"GET  /_ticket/1/5 ", None),
    (b"HEAD /_ticket/1/5 ", None),
    (b"\r\nGET /_ticket/1/5 ", None),
    (b"G", None),
];

/// Whether bytes may be read, and are.
fn hears(connection: &mut Connection, came: &[u8]) -> bool {
    connection.may_read() && connection.read_from(&mut Counted::new(came)).is_ok()
}

fn check(rt: &impl Abort, mut connection: Connection, came: &[u8], wanted: Option<Ticket>) {
    ensure(rt, connection.asks_receipt().is_none(), came);
    ensure(rt, hears(&mut connection, came), came);
    same(rt, connection.asks_receipt(), wanted);
    drop(connection);
}

#[test]
fn a_request_for_a_receipt_is_seen_before_it_is_read(rt: HostRuntime) {
    for &(came, wanted) in ROWS {
        check(&rt, Connection::new(rt.alloc()), came, wanted);
    }
}
