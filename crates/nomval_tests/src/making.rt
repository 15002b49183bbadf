// What `make` writes and says.
use crate::desks::{desk_with, ends, wrote, wrote_none};
use gas_desk::MemDesk;
use gas_model::{List, NoMemory};
use std::alloc::Global;
use std::test::Fail;

const OF_ONE: &str = "gasflat 1\nnode n0 0 10000000 0 0\nend\n";

const OF_THREE: &str =
    "gasflat 1\nnode n0 0 10000000 2 2\nnode n1 0 10000000 -1 -1\nnode n2 0 10000000 -1 -1\nvalve v0 n0 n1 0 3\npipe p1 n1 n2 0 3 1 2 1\ngroup g\ndecision shut\nset v0 closed\ndecision pass\nset v0 open\nend\n";

// A desk without a file, which fails at these calls.
fn bare_desk(alloc: Global, fails: &[u64]) -> Result<MemDesk, NoMemory> {
    desk_with(alloc, List::new(alloc), fails)
}

// Whether this many nodes are made with this line, and with this text in OUT.
fn makes(alloc: Global, count: &str, said: &str, text: &str) -> Result<bool, NoMemory> {
    let mut desk = bare_desk(alloc, &[])?;
    Ok(ends(alloc, &mut desk, &["make", count, "o"], 0, said) && wrote(&desk, text))
}

#[test]
fn a_number_makes_its_problem(rt: HostRuntime) -> Result<(), Fail> {
    let alloc = rt.alloc();
    assert!(rt; makes(alloc, "1", "made nodes 1 arcs 0 accepted\n", OF_ONE)?);
    assert!(rt; makes(alloc, "3", "made nodes 3 arcs 2 accepted\n", OF_THREE)?);
    let mut desk = bare_desk(alloc, &[])?;
    let words = ["make", "200", "o"];
    assert!(rt;
        ends(
            alloc,
            &mut desk,
            &words,
            0,
            "made nodes 200 arcs 199 accepted\n"
        )
    );
    // What was written is the problem of which that was said.
    let solve = ["solve-flat", "o", "s"];
    let both = "made nodes 200 arcs 199 accepted\naccepted\n";
    assert!(rt; ends(alloc, &mut desk, &solve, 0, both));
    Ok(())
}

#[test]
fn other_words_make_nothing(rt: HostRuntime) -> Result<(), Fail> {
    let alloc = rt.alloc();
    let cases: [(&[&str], &str); 8] = [
        (&["make"], "usage word 1\n"),
        (&["make", "0", "o"], "usage word 1\n"),
        (&["make", "03", "o"], "usage word 1\n"),
        (&["make", "x", "o"], "usage word 1\n"),
        (&["make", "2001", "o"], "usage word 1\n"),
        (&["make", "18446744073709551617", "o"], "usage word 1\n"),
        (&["make", "5"], "usage word 2\n"),
        (&["make", "5", "o", "x"], "usage word 3\n"),
    ];
    for (words, said) in cases {
        let mut desk = bare_desk(alloc, &[])?;
        assert!(rt; ends(alloc, &mut desk, words, 64, said));
        assert!(rt; wrote_none(&desk));
    }
    Ok(())
}

#[test]
fn a_fault_of_writing_leaves_a_front_of_it(rt: HostRuntime) -> Result<(), Fail> {
    let alloc = rt.alloc();
    // Call 0 starts OUT, and calls 1 and 2 write to it.
    let mut desk = bare_desk(alloc, &[2])?;
    assert!(rt; ends(alloc, &mut desk, &["make", "3", "o"], 74, ""));
    assert!(rt; wrote(&desk, "gasflat 1\n"));
    Ok(())
}
