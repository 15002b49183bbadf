//! The program on a nomination that nothing carries.
#![tactic(auto)]

use nomval_host::run_words;
use std::process::ExitCode;

fn main(rt: HostRuntime) -> ExitCode {
    run_words(rt)
}
