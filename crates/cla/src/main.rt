//! The program: the words of the system, the real files and streams, and the top call.
#![tactic(auto)]

use cla_cli::{code, run};
use cla_io::{DiskFiles, StdSink};
use cla_num::{Int, Meter};
use std::env;
use std::io::ErrorKind;
use std::process::ExitCode;

/// The status where memory is wanting for the words.
const MEMORY: u8 = 1;

/// The status where the system doesn't give the words, as where one of them isn't UTF-8.
const NO_WORDS: u8 = 11;

fn main(rt: HostRuntime) -> ExitCode {
    let words = match env::args(&rt) {
        Ok(words) => words,
        Err(error) if error.kind() == ErrorKind::OutOfMemory => return ExitCode::from(MEMORY),
        Err(_) => return ExitCode::from(NO_WORDS),
    };
    let words: Vec<String> = match words.skip(1).collect(rt.alloc()) {
        Ok(words) => words,
        Err(_) => return ExitCode::from(MEMORY),
    };
    let mut files = DiskFiles::new(&rt, rt.alloc());
    let mut out = StdSink::new(rt.stdout());
    let mut err = StdSink::new(rt.stderr());
    let mut meter = Meter::new();
    let status = run::<Int<47>, _, _, _>(
        rt.alloc(),
        &words,
        &mut files,
        &mut out,
        &mut err,
        &mut meter,
    );
    ExitCode::from(code(&status))
}
