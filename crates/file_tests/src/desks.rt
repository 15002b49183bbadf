// Files in memory and of the host, whole and in parts.
use gas_desk::{Desk, HostDesk, MemDesk, NeverFails, ReadStop, WriteStop, read_file, write_file};
use gas_model::{Bytes, List, Name, NoMemory};
use std::alloc::Global;
use std::fs;
use std::test::Fail;

fn one_file(alloc: Global, name: &str, content: &[u8]) -> Result<List<(Name, Bytes)>, NoMemory> {
    let mut bytes = Bytes::new(alloc);
    bytes.append(content)?;
    let mut files = List::new(alloc);
    files.push((Name::of(alloc, name)?, bytes))?;
    Ok(files)
}

// Eleven bytes are read by four, four and three, and eight are written by three, three and two.
#[test]
fn files_are_read_and_written_in_parts(rt: HostRuntime) -> Result<(), Fail> {
    let alloc = rt.alloc();
    let files = one_file(alloc, "in", b"hello world")?;
    let mut desk = MemDesk::new(alloc, files, List::new(alloc), 4, 3)?;
    let bytes = read_file(alloc, &mut desk, "in", 100)?;
    assert_eq!(rt; bytes.as_slice(), b"hello world".as_slice());
    write_file(&mut desk, "out", b"abcdefgh")?;
    assert_eq!(rt; desk.file("out").unwrap_or(b""), b"abcdefgh".as_slice());
    assert_eq!(rt; desk.file("in").unwrap_or(b""), b"hello world".as_slice());
    assert!(rt; desk.file("other").is_none());
    desk.say(b"done")?;
    assert_eq!(rt; desk.said(), b"done\n".as_slice());
    Ok(())
}

// Call 0 starts the file anew, call 1 writes three bytes, and call 2 fails.
#[test]
fn a_failed_write_leaves_a_front(rt: HostRuntime) -> Result<(), Fail> {
    let alloc = rt.alloc();
    let files = one_file(alloc, "out", b"old content")?;
    let mut fails = List::new(alloc);
    fails.push(2)?;
    let mut desk = MemDesk::new(alloc, files, fails, 4, 3)?;
    let written = write_file(&mut desk, "out", b"abcdefgh");
    assert_eq!(rt; written, Err(WriteStop::Failed));
    assert_eq!(rt; desk.file("out").unwrap_or(b""), b"abc".as_slice());
    let read = read_file(alloc, &mut desk, "other", 100).map(|_| ());
    assert_eq!(rt; read, Err(ReadStop::Failed));
    Ok(())
}

// Ten bytes are one too many for a limit of nine.
#[test]
fn a_longer_file_is_refused(rt: HostRuntime) -> Result<(), Fail> {
    let alloc = rt.alloc();
    let files = one_file(alloc, "in", b"0123456789")?;
    let mut desk = NeverFails::new(alloc, files)?;
    let long = read_file(alloc, &mut desk, "in", 9).map(|_| ());
    assert_eq!(rt; long, Err(ReadStop::TooLong { taken: 10 }));
    let whole = read_file(alloc, &mut desk, "in", 10)?;
    assert_eq!(rt; whole.as_slice(), b"0123456789".as_slice());
    let none = read_file(alloc, &mut desk, "other", 10)?;
    assert_eq!(rt; none.len(), 0);
    let text = format!(in alloc; "{}", ReadStop::TooLong { taken: 10 })?;
    assert_eq!(rt;
        text.as_str(),
        "the file is too long: reading stopped at byte 10"
    );
    Ok(())
}

// The second writing is shorter, and nothing of the first one is left.
#[test]
fn the_host_keeps_a_file(rt: HostRuntime) -> Result<(), Fail> {
    let alloc = rt.alloc();
    let mut desk = HostDesk::new(rt.clone()?, alloc);
    write_file(&mut desk, "kept", b"some bytes")?;
    write_file(&mut desk, "kept", b"others")?;
    let bytes = read_file(alloc, &mut desk, "kept", 100)?;
    assert_eq!(rt; bytes.as_slice(), b"others".as_slice());
    fs::remove_file(&rt, "kept")?;
    let missing = read_file(alloc, &mut desk, "kept", 100).map(|_| ());
    assert_eq!(rt; missing, Err(ReadStop::Failed));
    desk.say(b"said")?;
    Ok(())
}
