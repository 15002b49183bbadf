//! The program on a nomination that it leaves undecided.
#![tactic(auto)]

use nomval_host::run_words;
use std::process::ExitCode;

fn main(rt: HostRuntime) -> ExitCode {
    run_words(rt)
}
