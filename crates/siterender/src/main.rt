//! `siterender [--release N] PATH`: the page for a path, from framed commands on standard input.
#![tactic(auto)]

use engine_options::{Misuse, asks_version, command_line, refuse, render_options, tell_version};
use engine_page::siterender;
use http_read::Counted;
use std::io::Write;
use std::process::ExitCode;

/// The page, or one line, and the exit status.
fn run<E: Write>(rt: &HostRuntime, err: &mut Counted<E>) -> Result<u8, Misuse> {
    let alloc = rt.alloc();
    let words = command_line(rt)?;
    if asks_version(words.as_slice()) {
        return Ok(tell_version(alloc, &mut Counted::new(rt.stdout()), "siterender")?);
    }
    let options = render_options(alloc, words.as_slice())?;
    let mut reader = Counted::new(rt.stdin());
    let mut out = Counted::new(rt.stdout());
    Ok(siterender(
        alloc,
        &mut reader,
        &mut out,
        err,
        options.release,
        options.path,
    ))
}

fn main(rt: HostRuntime) -> ExitCode {
    let mut err = Counted::new(rt.stderr());
    let status = match run(&rt, &mut err) {
        Ok(status) => status,
        Err(why) => refuse(rt.alloc(), &mut err, &why),
    };
    ExitCode::from(status)
}
