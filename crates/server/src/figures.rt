//! How large a server's record is, and how much memory it takes.

use server_notes::Figures;
use std::fs::{self, File};
use std::io::{self, Read};
use std::rt::Files;

/// How many bytes a page of memory has on x86-64.
const PAGE: u64 = 4096;

/// Where Linux reports how many pages the process has in memory: the second number of the line
/// (proc_pid_statm(5)).
const PAGES: &str = "/proc/self/statm";

fn second_number(line: &[u8]) -> Option<u64> {
    let line = str::from_utf8(line).ok()?;
    line.split_ascii_whitespace().nth(1)?.parse().ok()
}

/// How many bytes a file has; 0 if the system does not report it.
fn bytes_of<R: Files<File = File>>(rt: &R, path: &str) -> u64 {
    match fs::metadata(rt, path) {
        Ok(data) => data.len(),
        Err(_) => 0,
    }
}

/// The first bytes of a file, as many as a read gives.
fn read_front<R: Files<File = File>>(rt: &R, path: &str, front: &mut [u8]) -> io::Result<usize> {
    let mut file = File::open(rt, path)?;
    file.read(front)
}

/// How many pages the process has in memory; 0 if the system does not report it.
fn pages<R: Files<File = File>>(rt: &R) -> u64 {
    let mut front = [0; 128];
    match read_front(rt, PAGES, &mut front) {
        Ok(n) => front.get(..n).and_then(second_number).unwrap_or(0),
        Err(_) => 0,
    }
}

/// The figures of a server over that record, as they are now.
pub(crate) fn take_figures<R: Files<File = File>>(rt: &R, record: &str) -> Figures {
    Figures {
        bytes: bytes_of(rt, record),
        memory: pages(rt).saturating_mul(PAGE),
    }
}
