// Faults of reading and writing, and files that are too long.
use crate::desks::{desk_with, ends, flat, one_file, wrote, wrote_none};
use gas_desk::NeverFails;
use gas_model::{Bytes, Name, NoMemory};
use nomval::run_undisturbed;
use std::alloc::Global;
use std::test::Fail;

const WORDS: [&str; 3] = ["solve-flat", "p", "o"];

#[test]
fn a_fault_of_reading_is_said(rt: HostRuntime) -> Result<(), Fail> {
    let alloc = rt.alloc();
    // Call 0 starts to read the problem, and call 1 reads it.
    let files = one_file(alloc, flat(alloc, "node a 0 9 0 0\n")?)?;
    let mut desk = desk_with(alloc, files, &[1])?;
    assert!(rt; ends(alloc, &mut desk, &WORDS, 66, "read fault\n"));
    assert!(rt; wrote_none(&desk));
    // There is no setting of this name.
    let files = one_file(alloc, flat(alloc, "node a 0 9 0 0\n")?)?;
    let mut desk = desk_with(alloc, files, &[])?;
    assert!(rt;
        ends(
            alloc,
            &mut desk,
            &["replay-flat", "p", "s"],
            66,
            "read fault\n"
        )
    );
    Ok(())
}

#[test]
fn a_fault_of_writing_leaves_a_front(rt: HostRuntime) -> Result<(), Fail> {
    let alloc = rt.alloc();
    // Calls 0 to 2 read the problem, call 3 starts OUT, and calls 4 and 5 write to it.
    let files = one_file(alloc, flat(alloc, "node a 0 9 0 0\n")?)?;
    let mut desk = desk_with(alloc, files, &[5])?;
    assert!(rt; ends(alloc, &mut desk, &WORDS, 74, ""));
    assert!(rt; wrote(&desk, "{\"arcs\":[]"));
    Ok(())
}

#[test]
fn nothing_fails_on_a_desk_that_never_fails(rt: HostRuntime) -> Result<(), Fail> {
    let alloc = rt.alloc();
    let files = one_file(alloc, flat(alloc, "node a 0 9 0 0\n")?)?;
    let mut desk = NeverFails::new(alloc, files)?;
    assert_eq!(rt; run_undisturbed(alloc, &WORDS, &mut desk).exit(), 0);
    Ok(())
}

// A file of one byte more than may be read.
fn long_file(alloc: Global) -> Result<Bytes, NoMemory> {
    let piece = [b'x'; 4_096];
    let mut bytes = Bytes::new(alloc);
    for _ in 0..16_384 {
        bytes.append(&piece)?;
    }
    bytes.push(b'x')?;
    Ok(bytes)
}

#[test]
fn a_file_past_the_limit_is_too_long(rt: HostRuntime) -> Result<(), Fail> {
    let alloc = rt.alloc();
    let mut desk = desk_with(alloc, one_file(alloc, long_file(alloc)?)?, &[])?;
    assert!(rt; ends(alloc, &mut desk, &WORDS, 65, "too long problem\n"));
    assert!(rt; wrote_none(&desk));
    let mut files = one_file(alloc, flat(alloc, "node a 0 9 0 0\n")?)?;
    files.push((Name::of(alloc, "t")?, long_file(alloc)?))?;
    let mut desk = desk_with(alloc, files, &[])?;
    assert!(rt;
        ends(
            alloc,
            &mut desk,
            &["check-flat", "p", "t"],
            65,
            "too long tree\n"
        )
    );
    Ok(())
}

// The problem is read before its file is written over.
#[test]
fn a_problem_may_be_its_own_out(rt: HostRuntime) -> Result<(), Fail> {
    let alloc = rt.alloc();
    let files = one_file(alloc, flat(alloc, "node a 0 9 0 0\n")?)?;
    let mut desk = desk_with(alloc, files, &[])?;
    assert!(rt; ends(alloc, &mut desk, &["solve-flat", "p", "p"], 0, "accepted\n"));
    let text = "{\"arcs\":[],\"decisions\":[],\"nodes\":[[\"a\",40]]}\n";
    assert!(rt; desk.file("p") == Some(text.as_bytes()));
    Ok(())
}
