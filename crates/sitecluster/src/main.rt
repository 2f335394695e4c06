//! `sitecluster`: three servers on the loopback, done line by line as a script on standard input says.
#![tactic(auto)]

use engine_options::{Misuse, asks_version, cluster_options, command_line, refuse, tell_version};
use engine_script::sitecluster;
use http_read::Counted;
use std::io::Write;
use std::process::ExitCode;

/// What the script's requests are answered with, or one line of fault, and the exit status.
fn run<E: Write>(rt: &HostRuntime, err: &mut Counted<E>) -> Result<u8, Misuse> {
    let alloc = rt.alloc();
    let words = command_line(rt)?;
    if asks_version(words.as_slice()) {
        return Ok(tell_version(alloc, &mut Counted::new(rt.stdout()), "sitecluster")?);
    }
    cluster_options(alloc, words.as_slice())?;
    let mut reader = Counted::new(rt.stdin());
    let mut out = Counted::new(rt.stdout());
    Ok(sitecluster(rt, alloc, &mut reader, &mut out, err))
}

fn main(rt: HostRuntime) -> ExitCode {
    let mut err = Counted::new(rt.stderr());
    let status = match run(&rt, &mut err) {
        Ok(status) => status,
        Err(why) => refuse(rt.alloc(), &mut err, &why),
    };
    ExitCode::from(status)
}
