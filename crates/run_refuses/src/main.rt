//! The program on four files of which a table has too few rows.
#![tactic(auto)]

use nomval_host::run_words;
use std::process::ExitCode;

fn main(rt: HostRuntime) -> ExitCode {
    run_words(rt)
}
