// Files in memory, and how a command ends over them.
use gas_desk::MemDesk;
use gas_model::{Bytes, List, Name, NoMemory};
use nomval::run;
use std::alloc::Global;

// A flat problem of these lines.
pub fn flat(alloc: Global, lines: &str) -> Result<Bytes, NoMemory> {
    let mut bytes = Bytes::new(alloc);
    bytes.append(b"gasflat 1\n")?;
    bytes.append(lines.as_bytes())?;
    bytes.append(b"end\n")?;
    Ok(bytes)
}

// The file `p` of these bytes.
pub fn one_file(alloc: Global, bytes: Bytes) -> Result<List<(Name, Bytes)>, NoMemory> {
    let mut files = List::new(alloc);
    files.push((Name::of(alloc, "p")?, bytes))?;
    Ok(files)
}

// A desk that reads at most 65,536 bytes and writes at most 10 bytes a call, and fails at these calls.
pub fn desk_with(
    alloc: Global,
    files: List<(Name, Bytes)>,
    fails: &[u64],
) -> Result<MemDesk, NoMemory> {
    let mut calls = List::new(alloc);
    for call in fails {
        calls.push(*call)?;
    }
    MemDesk::new(alloc, files, calls, 65_536, 10)
}

// A desk with the problem of these lines.
pub fn problem_desk(alloc: Global, lines: &str) -> Result<MemDesk, NoMemory> {
    desk_with(alloc, one_file(alloc, flat(alloc, lines)?)?, &[])
}

// The same with this text in the file `s`.
pub fn desk_of_two(alloc: Global, lines: &str, text: &[u8]) -> Result<MemDesk, NoMemory> {
    let mut files = one_file(alloc, flat(alloc, lines)?)?;
    let mut bytes = Bytes::new(alloc);
    bytes.append(text)?;
    files.push((Name::of(alloc, "s")?, bytes))?;
    desk_with(alloc, files, &[])
}

// Whether these words end with this exit status, and this is then all that was said.
pub fn ends(alloc: Global, desk: &mut MemDesk, words: &[&str], exit: u8, said: &str) -> bool {
    run(alloc, words, desk).exit() == exit && desk.said() == said.as_bytes()
}

// Whether the file `o` holds this text.
pub fn wrote(desk: &MemDesk, text: &str) -> bool {
    desk.file("o") == Some(text.as_bytes())
}

// Whether there is no file `o`.
pub fn wrote_none(desk: &MemDesk) -> bool {
    desk.file("o").is_none()
}
