//! `sited --id P --record FILE --http ADDRESS --rounds R [--format] [--above P:REACH].. ADDRESS..`: one node
//! of a group, over UDP and HTTP. `sited --inspect FILE`: what a record holds.
#![tactic(auto)]

use engine_options::{
    Misuse, asks_version, command_line, inspected, refuse, sited_options, tell_version,
};
use http_read::Counted;
use server::sited;
use server_inspect::inspect;
use std::fs::File;
use std::io::{self, Write};
use std::process::ExitCode;

/// Takes the places of standard input, output and error that are closed: the record would be opened there,
/// and what is printed would be written into it. Writing to one of these places fails.
fn stand_ins(rt: &HostRuntime) -> [io::Result<File>; 3] {
    [
        File::open(rt, "/"),
        File::open(rt, "/"),
        File::open(rt, "/"),
    ]
}

/// The node's rounds, with a line when it is ready, when they are done, and for a fault; and the exit status.
fn run<E: Write>(rt: &HostRuntime, err: &mut Counted<E>) -> Result<u8, Misuse> {
    let alloc = rt.alloc();
    let words = command_line(rt)?;
    if asks_version(words.as_slice()) {
        return Ok(tell_version(alloc, &mut Counted::new(rt.stdout()), "sited")?);
    }
    if let Some(file) = inspected(words.as_slice()) {
        let mut out = Counted::new(rt.stdout());
        return Ok(inspect(rt, alloc, &mut out, err, file));
    }
    let options = sited_options(alloc, words.as_slice())?;
    let mut out = Counted::new(rt.stdout());
    Ok(sited(rt, alloc, &mut out, err, &options))
}

fn main(rt: HostRuntime) -> ExitCode {
    let held = stand_ins(&rt);
    let mut err = Counted::new(rt.stderr());
    let status = match run(&rt, &mut err) {
        Ok(status) => status,
        Err(why) => refuse(rt.alloc(), &mut err, &why),
    };
    drop(held);
    ExitCode::from(status)
}
