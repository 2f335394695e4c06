//! What an editor does with a folder of a site: `sitepub new`, `import`, `check`, `preview`, `publish`,
//! `restore`, `log`, `status`, `export`, `frame`.
//!
//! `words.rt` does what a command line says (`editor_options`). What each word does is in crates of their own
//! (`editor_words`, `editor_import`, `editor_publish`, `editor_group`, `editor_preview`, over
//! `editor_files`). What real files and sockets give and take is tested, not proved.
#![tactic(auto)]

mod words;

use std::fs::File;
use std::io;
use std::process::ExitCode;
use words::sitepub;

/// Takes the places of standard input, output and error that are closed. Otherwise a file that is opened
/// later would get such a place, and what is printed would be written into it. Writing to a place taken here
/// fails.
fn stand_ins(rt: &HostRuntime) -> [io::Result<File>; 3] {
    [
        File::open(rt, "/"),
        File::open(rt, "/"),
        File::open(rt, "/"),
    ]
}

fn main(rt: HostRuntime) -> ExitCode {
    let held = stand_ins(&rt);
    let status = sitepub(&rt, &mut rt.stdout(), &mut rt.stderr());
    drop(held);
    ExitCode::from(status)
}
