//! Reads the command line, standard input and standard output, and does the work of
//! `word_inclusions::texts::run_program`.
#![tactic(auto)]

use cyc_io::{StdSink, StdSource, command_words};
use std::process::ExitCode;
use word_inclusions::texts::run_program;

fn main(rt: HostRuntime) -> ExitCode {
    let mut src = StdSource::new(rt.stdin());
    let mut out = StdSink::new(rt.stdout());
    run_program(rt.alloc(), command_words(&rt), &mut src, &mut out)
}
