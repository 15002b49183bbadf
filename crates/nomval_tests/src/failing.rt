// One call of a desk fails, or each call from a number on: how each command then ends, and what its file holds.
use crate::desks::desk_with;
use gas_desk::Fading;
use gas_model::{Bytes, List, Name, NoMemory};
use nomval::run;
use std::alloc::Global;
use std::test::Fail;

// A command over the files below, with the file `o` where it writes one.
#[derive(Clone, Copy)]
struct Case<'a> {
    words: &'a [&'a str],
    // How many calls it makes that read, and how many in all.
    reads: usize,
    calls: usize,
    exit: u8,
    said: &'a str,
    written: Option<&'a str>,
}

const SETTING: &str =
    "{\"arcs\":[[\"p\",\"open\",3]],\"decisions\":[],\"nodes\":[[\"a\",25],[\"b\",16]]}\n";

const FILES: [(&str, &str); 8] = [
    // A flow of 3, and its setting.
    (
        "three",
        "gasflat 1\nnode a 5 5 3 3\nnode b 0 9 -3 -3\npipe p a b -10 10 1 1 1\nend\n",
    ),
    ("setting", SETTING),
    // A flow of 4, which drops too much, and its tree.
    (
        "four",
        "gasflat 1\nnode a 5 5 4 4\nnode b 4 9 -4 -4\npipe p a b -10 10 1 1 1\nend\n",
    ),
    (
        "tree",
        "gastree 1\nlo q0 4 balance 0\nhi q0 4 balance 0\nclose pipe 0\nend\n",
    ),
    // A node alone.
    ("n", "<network><nodes><innode id=\"a\"/></nodes></network>"),
    ("s", "<boundaryValue><scenario/></boundaryValue>"),
    ("c", "<combinedDecisions/>"),
    ("r", ""),
];

// A file is started, read and found at its end by a call each; the empty one at its first reading. OUT is started, written
// by 10 bytes a call, and finished. The last call says the line.
const CASES: [Case<'static>; 7] = [
    Case {
        words: &["solve-flat", "three", "o"],
        reads: 3,
        calls: 13,
        exit: 0,
        said: "accepted\n",
        written: Some(SETTING),
    },
    Case {
        words: &["replay-flat", "three", "setting"],
        reads: 6,
        calls: 7,
        exit: 0,
        said: "kept\n",
        written: None,
    },
    Case {
        words: &["check-flat", "four", "tree"],
        reads: 6,
        calls: 7,
        exit: 0,
        said: "passes\n",
        written: None,
    },
    Case {
        words: &["make", "1", "o"],
        reads: 0,
        calls: 7,
        exit: 0,
        said: "made nodes 1 arcs 0 accepted\n",
        written: Some("gasflat 1\nnode n0 0 10000000 0 0\nend\n"),
    },
    Case {
        words: &["flat", "n", "s", "c", "r", "o"],
        reads: 11,
        calls: 18,
        exit: 0,
        said: "written\n",
        written: Some("gasflat 1\nnode a 0 100000000 0 0\nend\n"),
    },
    Case {
        words: &["solve", "n", "s", "c", "r", "o"],
        reads: 11,
        calls: 20,
        exit: 0,
        said: "accepted\n",
        written: Some("{\"arcs\":[],\"decisions\":[],\"nodes\":[[\"a\",5000000000000000]]}\n"),
    },
    Case {
        words: &["check", "n", "s", "c", "r", "tree"],
        reads: 14,
        calls: 15,
        exit: 3,
        said: "not refutation bad step line 2\n",
        written: None,
    },
];

fn files(alloc: Global) -> Result<List<(Name, Bytes)>, NoMemory> {
    let mut files = List::new(alloc);
    for (name, text) in FILES {
        let mut bytes = Bytes::new(alloc);
        bytes.append(text.as_bytes())?;
        files.push((Name::of(alloc, name)?, bytes))?;
    }
    Ok(files)
}

// What OUT holds where this call and no earlier one failed.
fn front<'a>(case: Case<'a>, call: usize) -> Option<&'a [u8]> {
    let text = case.written?.as_bytes();
    if call <= case.reads {
        return None;
    }
    let written = call.saturating_sub(case.reads).saturating_sub(1);
    text.get(..written.saturating_mul(10).min(text.len()))
}

// Whether the command ends so, with this exit status and this said, where this call alone fails.
fn ends_once(
    alloc: Global,
    case: Case<'_>,
    call: usize,
    exit: u8,
    said: &str,
) -> Result<bool, NoMemory> {
    let mut desk = desk_with(alloc, files(alloc)?, &[call as u64])?;
    let ended = run(alloc, case.words, &mut desk).exit() == exit;
    Ok(ended && desk.said() == said.as_bytes() && desk.file("o") == front(case, call))
}

// The same where each call from this one on fails.
fn ends_from(
    alloc: Global,
    case: Case<'_>,
    call: usize,
    exit: u8,
    said: &str,
) -> Result<bool, NoMemory> {
    let mut desk = Fading::new(alloc, files(alloc)?, call as u64, 65_536, 10)?;
    let ended = run(alloc, case.words, &mut desk).exit() == exit;
    Ok(ended && desk.said() == said.as_bytes() && desk.file("o") == front(case, call))
}

#[test]
fn a_call_that_fails_alone_is_answered(rt: HostRuntime) -> Result<(), Fail> {
    let alloc = rt.alloc();
    for case in CASES {
        for call in 0..case.reads {
            assert!(rt; ends_once(alloc, case, call, 66, "read fault\n")?, "{call}");
        }
        for call in case.reads..case.calls {
            assert!(rt; ends_once(alloc, case, call, 74, "")?, "{call}");
        }
        assert!(rt; ends_once(alloc, case, case.calls, case.exit, case.said)?);
    }
    Ok(())
}

// The line can't be said after a fault of reading either.
#[test]
fn calls_that_fail_from_one_on_are_answered(rt: HostRuntime) -> Result<(), Fail> {
    let alloc = rt.alloc();
    for case in CASES {
        for call in 0..case.calls {
            assert!(rt; ends_from(alloc, case, call, 74, "")?, "{call}");
        }
        assert!(rt; ends_from(alloc, case, case.calls, case.exit, case.said)?);
    }
    Ok(())
}
