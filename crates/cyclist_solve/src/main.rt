//! Reads the command line, standard input and standard output, and does the work of `solve_top::run_program`.
#![tactic(auto)]

use cyc_io::{StdSink, StdSource, command_words};
use solve_top::run_program;
use std::process::ExitCode;

fn main(rt: HostRuntime) -> ExitCode {
    let mut src = StdSource::new(rt.stdin());
    let mut out = StdSink::new(rt.stdout());
    run_program(rt.alloc(), command_words(&rt), &mut src, &mut out)
}
