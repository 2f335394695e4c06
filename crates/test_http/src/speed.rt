//! Many requests, as `bench/http` times them: the time of many less that of few.
use crate::comparing::ensure;
use crate::desk::{Desk, desk_of};
use crate::ends::served;
use crate::texts::times;
use std::alloc::Global;
use std::process::Abort;
use test_ends::whole;

const REQUEST: &str =
    "GET /h HTTP/1.1\r\nHost: localhost\r\nUser-Agent: bench\r\nAccept: */*\r\n\r\n";

/// Whether what is sent is answered, by more than `size` bytes.
fn writes_more(desk: &mut Desk<'_>, sent: &str, size: usize) -> bool {
    let run = served(desk, whole(sent.as_bytes()));
    let writes_more = run.result.is_ok() && run.written.len() > size;
    drop(run);
    writes_more
}

/// Checks `count` connections: each sends this and is answered by more than `size` bytes.
fn check(rt: &impl Abort, desk: &mut Desk<'_>, sent: &str, size: usize, count: u32) {
    for i in 0..count {
        ensure(rt, writes_more(desk, sent, size), i);
    }
}

fn check_page(rt: &impl Abort, alloc: Global, size: usize, requests: u32) {
    let page = times(rt, alloc, "a", size);
    let mut desk = desk_of(alloc, page.as_str(), 1);
    check(rt, &mut desk, REQUEST, size, requests);
    drop(desk);
}

/// A page of 100 bytes in connections of a hundred requests.
fn check_kept(rt: &impl Abort, alloc: Global, connections: u32) {
    let page = times(rt, alloc, "a", 100);
    let mut desk = desk_of(alloc, page.as_str(), 1);
    let requests = times(rt, alloc, REQUEST, 100);
    check(rt, &mut desk, requests.as_str(), 10_000, connections);
    drop(desk);
}

#[test]
fn few_small_pages(rt: HostRuntime) {
    check_page(&rt, rt.alloc(), 100, 100);
}

#[test]
fn many_small_pages(rt: HostRuntime) {
    check_page(&rt, rt.alloc(), 100, 20_100);
}

#[test]
fn few_pages_of_10_kb(rt: HostRuntime) {
    check_page(&rt, rt.alloc(), 10_000, 100);
}

#[test]
fn many_pages_of_10_kb(rt: HostRuntime) {
    check_page(&rt, rt.alloc(), 10_000, 5_100);
}

#[test]
fn few_pages_of_100_kb(rt: HostRuntime) {
    check_page(&rt, rt.alloc(), 100_000, 100);
}

#[test]
fn many_pages_of_100_kb(rt: HostRuntime) {
    check_page(&rt, rt.alloc(), 100_000, 600);
}

#[test]
fn few_kept_connections(rt: HostRuntime) {
    check_kept(&rt, rt.alloc(), 1);
}

#[test]
fn many_kept_connections(rt: HostRuntime) {
    check_kept(&rt, rt.alloc(), 201);
}
