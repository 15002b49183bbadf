//! Runs the program on the files of `examples/`, and prints what they hold and what is said of them.
#![tactic(auto)]

use gas_desk::{Desk, HostDesk, read_file};
use nomval::run;
use std::alloc::Global;
use std::process::ExitCode;

// The words of each run. The words after the command name files, up to an option, but for the number of `make`.
const RUNS: [&[&str]; 27] = [
    &["solve-flat", "one_node.flat", "out.json"],
    &["solve-flat", "two_nodes.flat", "out.json"],
    &["solve-flat", "no_pressure.flat", "out.tree"],
    &["solve-flat", "flow_of_three.flat", "out.json"],
    &["solve-flat", "resistor.flat", "out.json", "--tol", "0"],
    &["solve-flat", "constant_loss.flat", "out.json", "--tol", "0"],
    &["solve-flat", "valve_in_group.flat", "out.json"],
    &["solve-flat", "station.flat", "out.json"],
    &["solve-flat", "drop_of_nine.flat", "out.tree"],
    &["solve-flat", "station_at_seven.flat", "out.tree"],
    &["solve-flat", "two_pipes.flat", "out.json", "--tol", "1"],
    &["solve-flat", "two_pipes.flat", "out.tree", "--tol", "0"],
    &[
        "solve-flat",
        "one_way_pipes.flat",
        "out.tree",
        "--tol",
        "0",
        "--boxes",
        "1",
    ],
    &["check-flat", "one_way_pipes.flat", "out.tree"],
    &[
        "replay-flat",
        "flow_of_three.flat",
        "flow_of_three.json",
        "--tol",
        "0",
    ],
    &[
        "replay-flat",
        "resistor.flat",
        "resistor.json",
        "--tol",
        "0",
    ],
    &[
        "replay-flat",
        "constant_loss.flat",
        "constant_loss.json",
        "--tol",
        "0",
    ],
    &[
        "replay-flat",
        "valve_in_group.flat",
        "valve_in_group.json",
        "--tol",
        "0",
    ],
    &[
        "replay-flat",
        "control_valve.flat",
        "control_valve.json",
        "--tol",
        "0",
    ],
    &["replay-flat", "station.flat", "station.json", "--tol", "0"],
    &["replay-flat", "small_network.flat", "small_network.json"],
    &["check-flat", "drop_of_nine.flat", "drop_of_nine.tree"],
    &[
        "check-flat",
        "station_at_seven.flat",
        "station_at_seven.tree",
    ],
    &[
        "flat",
        "network.net",
        "scenario.scn",
        "decisions.cdf",
        "resistances.csv",
        "joined.flat",
    ],
    &[
        "solve",
        "network.net",
        "scenario.scn",
        "decisions.cdf",
        "resistances.csv",
        "out.json",
    ],
    &[
        "replay",
        "network.net",
        "scenario.scn",
        "decisions.cdf",
        "resistances.csv",
        "out.json",
    ],
    &["make", "3", "made.flat"],
];

// The most bytes of an example.
const LIMIT: u64 = 65_536;

// Prints the name of a file and what it holds, or that it can't be read.
fn show<D: Desk>(alloc: Global, desk: &mut D, name: &str) -> bool {
    let named = desk.say(name.as_bytes()).is_ok();
    let shown = match read_file(alloc, desk, name, LIMIT) {
        Ok(bytes) => desk.say(bytes.as_slice()).is_ok(),
        Err(_) => desk.say(b"not there").is_ok(),
    };
    named && shown
}

// The words that come after the command and its number, if it takes one.
fn after_command<'a, 'b>(words: &'b [&'a str]) -> &'b [&'a str] {
    match words {
        ["make", _, rest @ ..] => rest,
        [_, rest @ ..] => rest,
        [] => words,
    }
}

// Runs the program with these words, and prints the files that they name.
fn show_run<D: Desk>(alloc: Global, desk: &mut D, words: &[&str]) -> bool {
    let status = run(alloc, words, desk);
    let mut shown = status.exit() < 64;
    for name in after_command(words) {
        if name.starts_with("--") {
            break;
        }
        shown = show(alloc, desk, name) && shown;
    }
    shown
}

fn main(rt: HostRuntime) -> ExitCode {
    let alloc = rt.alloc();
    let mut desk = HostDesk::new(rt, alloc);
    let mut shown = true;
    for words in RUNS {
        shown = show_run(alloc, &mut desk, words) && shown;
    }
    ExitCode::from(if shown { 0 } else { 1 })
}
