//! `sitesim FILE`: a schedule of a cluster's events, done line by line, and what its nodes show.
#![tactic(auto)]

use engine_options::{Misuse, asks_version, command_line, refuse, sim_options, tell_version};
use engine_schedule::sitesim;
use http_read::Counted;
use std::fs::File;
use std::io::Write;
use std::process::ExitCode;

/// What the schedule's lines print, or one line of fault, and the exit status.
fn run<E: Write>(rt: &HostRuntime, err: &mut Counted<E>) -> Result<u8, Misuse> {
    let alloc = rt.alloc();
    let words = command_line(rt)?;
    if asks_version(words.as_slice()) {
        return Ok(tell_version(alloc, &mut Counted::new(rt.stdout()), "sitesim")?);
    }
    let options = sim_options(alloc, words.as_slice())?;
    let Ok(file) = File::open(rt, options.file) else {
        let _ = eprintln!(rt; "read failed");
        return Ok(1);
    };
    let mut reader = Counted::new(file);
    let mut out = Counted::new(rt.stdout());
    Ok(sitesim(alloc, &mut reader, &mut out, err))
}

fn main(rt: HostRuntime) -> ExitCode {
    let mut err = Counted::new(rt.stderr());
    let status = match run(&rt, &mut err) {
        Ok(status) => status,
        Err(why) => refuse(rt.alloc(), &mut err, &why),
    };
    ExitCode::from(status)
}
