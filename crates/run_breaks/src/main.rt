//! The program on a setting that doesn't balance.
#![tactic(auto)]

use nomval_host::run_words;
use std::process::ExitCode;

fn main(rt: HostRuntime) -> ExitCode {
    run_words(rt)
}
