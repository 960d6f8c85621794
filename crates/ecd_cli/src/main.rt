//! The compiler from CDDL (RFC 8610) to C readers and writers of deterministic CBOR (RFC 8949): the words of the command line,
//! done over the files and streams of the system.
#![tactic(auto)]

use ecd_commands::{Line, OUT_OF_MEMORY, Status, run, tell};
use ecd_outside::{StdFiles, StdSink};
use std::env;
use std::io::{Error, ErrorKind};
use std::process::ExitCode;

/// The exit status where the system does not give the program its words.
const NO_WORDS: u8 = 14;

/// The words after the program's name.
fn process_words(rt: HostRuntime) -> Result<Vec<String>, Error> {
    let mut words = Vec::new(rt.alloc());
    for word in env::args(&rt)?.skip(1) {
        words.push(word)?;
    }
    Ok(words)
}

fn main(rt: HostRuntime) -> ExitCode {
    let mut err = StdSink::new(rt.stderr());
    match process_words(rt) {
        Ok(words) => {
            let mut files = StdFiles::new(rt);
            let mut out = StdSink::new(rt.stdout());
            let status = run(rt.alloc(), &words, &mut files, &mut out, &mut err);
            ExitCode::from(status.number())
        }
        Err(error) if error.kind() == ErrorKind::OutOfMemory => {
            tell(&Line::Fixed(OUT_OF_MEMORY), &mut err);
            ExitCode::from(Status::OutOfMemory.number())
        }
        Err(_) => ExitCode::from(NO_WORDS),
    }
}
