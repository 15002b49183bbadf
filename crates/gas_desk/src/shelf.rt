// What the desks in memory share: files by name, on which only want of memory stops a call.
ghost use Rattle.std.specs.Prelude.{◌≡◌, ◌≢◌, ◌<◌, ◌≤◌, ℕ, List, true, false, [], ◌∷◌, ◌++◌, length, take, min, unwrap_or, Some, None, IsSome, IfOk, OnOk, OnErr, MatchOption, MatchResult};
ghost use Rattle.std.specs.Option.{option_map, option_to_list};
ghost use Rattle.gas_desk.specs.Outside.{SameBut, SameFiles, SameMarks, SameMarksBut, SameReading, SameWriting, ReadTakes, WriteAdds};
ghost use Rattle.gas_desk.specs.Shelf.{held, kept_files, on_shelf, shelf_files, LastGrows};

use base_types::{Bytes, List, Name, NoMemory};
use std::alloc::Global;

// A file that was started, but not as the last.
#[derive(Drop)]
struct Kept {
    file: (Name, Bytes),
    finished: bool,
}

// Files in memory, and the lines said. Of the files with one name the first counts, in this order:
// the one that was started last, those started before it from the latest on, those given at first.
#[derive(Drop)]
pub struct Shelf {
    alloc: Global,
    given: List<(Name, Bytes)>,
    written: Vec<Kept>,
    last: Option<(Name, Bytes)>,
    // Whether the last start went well, and whether that file is finished.
    started: bool,
    finished: bool,
    // The name of the file being read, all that it held at its start, and how much was taken.
    reading: Option<Name>,
    source: Bytes,
    taken: usize,
    said: Bytes,
}

// What the first file of this name holds.
fn held_in<'a>(files: &'a [(Name, Bytes)], name: &str) -> Option<&'a [u8]>
    ensures { option_map (λ s. s.now) result ≡ held files.entry.now name.now }
{
    for file in files {
        if file.0.as_str() == name {
            return Some(file.1.as_slice());
        }
    }
    None
}

// The same of files that were started.
fn held_in_kept<'a>(files: &'a [Kept], name: &str) -> Option<&'a [u8]>
    ensures { option_map (λ s. s.now) result ≡ held (kept_files files.entry.now) name.now }
{
    for kept in files {
        if kept.file.0.as_str() == name {
            return Some(kept.file.1.as_slice());
        }
    }
    None
}

// What the one file holds, if it has this name.
fn held_last<'a>(last: &'a Option<(Name, Bytes)>, name: &str) -> Option<&'a [u8]>
    ensures { option_map (λ s. s.now) result ≡ held (option_to_list last.entry.now) name.now }
{
    match last {
        Some(file) if file.0.as_str() == name => Some(file.1.as_slice()),
        _ => None,
    }
}

impl Shelf {
    // These files, of those with one name the first, and nothing said, read or written.
    pub fn new(alloc: Global, given: List<(Name, Bytes)>) -> Shelf
        ensures files { shelf_files result ≡ given }
        ensures said { (on_shelf result).said ≡ [] }
        ensures reading { (on_shelf result).reading ≡ None }
        ensures writing { (on_shelf result).writing ≡ false }
        ensures finished { (n : List ℕ) → (on_shelf result).finished n ≡ false }
    {
        Shelf {
            alloc,
            given,
            written: Vec::new(alloc),
            last: None,
            started: false,
            finished: false,
            reading: None,
            source: Bytes::new(alloc),
            taken: 0,
            said: Bytes::new(alloc),
        }
    }

    #[tactic(auto, using(crate::proofs::Held::held_laws))]
    pub fn file(&self, name: &str) -> Option<&[u8]>
        ensures { option_map (λ s. s.now) result ≡ (on_shelf self.entry.now).files name.now }
    {
        match held_last(&self.last, name) {
            Some(bytes) => Some(bytes),
            None => match held_in_kept(&self.written, name) {
                Some(bytes) => Some(bytes),
                None => held_in(self.given.as_slice(), name),
            },
        }
    }

    pub fn said(&self) -> &[u8]
        ensures { result.now ≡ (on_shelf self.now).said }
    {
        self.said.as_slice()
    }

    // Reads a copy of the file, which stays as it is while the file is written. A name that isn't
    // held reads as an empty file.
    pub fn start_read(&mut self, name: &str) -> Result<(), NoMemory>
        ensures started { OnOk result ((on_shelf self.new).reading ≡ Some name.now) }
        ensures stopped { OnErr result ((on_shelf self.new).reading ≡ None) }
        ensures left { OnOk result ((on_shelf self.new).left
            ≡ unwrap_or ((on_shelf self.old).files name.now) []) }
        ensures files { shelf_files self.new ≡ shelf_files self.old }
        ensures said { (on_shelf self.new).said ≡ (on_shelf self.old).said }
        ensures writing { SameWriting (on_shelf self.old) (on_shelf self.new) }
        ensures marks { SameMarks (on_shelf self.old) (on_shelf self.new) }
    {
        self.reading = None;
        let mut source = Bytes::new(self.alloc);
        if let Some(bytes) = self.file(name) {
            source.append(bytes)?;
        }
        let kept = Name::of(self.alloc, name)?;
        self.source = source;
        self.taken = 0;
        self.reading = Some(kept);
        Ok(())
    }

    pub fn stop_reading(&mut self)
        ensures { self.new ≡ record self.old { reading = None } }
    {
        self.reading = None;
    }

    // Takes at most `most` bytes, and none only at the end.
    pub fn read(&mut self, buf: &mut [u8], most: usize) -> usize
        requires { 0 < most }
        ensures bound { result ≤ length buf.new }
        ensures most { result ≤ most }
        ensures taken { (on_shelf self.old).left
            ≡ take result buf.new ++ (on_shelf self.new).left }
        ensures end { result ≡ 0 → 0 < length buf.new → (on_shelf self.new).left ≡ [] }
        ensures rest { (taken : ℕ) × (self.new ≡ record self.old { taken = taken }) }
    {
        let source = self.source.as_slice();
        let left = source.len().saturating_sub(self.taken);
        let count = left.min(buf.len()).min(most);
        if count == 0 {
            return 0;
        }
        buf[..count].copy_from_slice(&source[self.taken..self.taken + count]);
        self.taken += count;
        count
    }

    // Puts an empty file of this name before all others.
    pub fn start_write(&mut self, name: &str) -> Result<(), NoMemory>
        ensures started { OnOk result ((on_shelf self.new).writing ≡ true) }
        ensures stopped { OnErr result ((on_shelf self.new).writing ≡ false) }
        ensures ok { OnOk result (shelf_files self.new
            ≡ (name.now, []) ∷ shelf_files self.old) }
        ensures target { OnOk result ((on_shelf self.new).target ≡ name.now) }
        ensures err { OnErr result (shelf_files self.new ≡ shelf_files self.old) }
        ensures kept_marks { OnErr result (SameMarks (on_shelf self.old) (on_shelf self.new)) }
        ensures unmarked { OnOk result ((on_shelf self.new).finished name.now ≡ false) }
        ensures marks { SameMarksBut name.now (on_shelf self.old) (on_shelf self.new) }
        ensures said { (on_shelf self.new).said ≡ (on_shelf self.old).said }
        ensures reading { SameReading (on_shelf self.old) (on_shelf self.new) }
        ensures left { (on_shelf self.new).left ≡ (on_shelf self.old).left }
    {
        self.started = false;
        let kept = Name::of(self.alloc, name)?;
        if let Some(file) = self.last.take() {
            let earlier = Kept {
                file,
                finished: self.finished,
            };
            if let Err(refused) = self.written.insert(0, earlier) {
                self.last = Some(refused.value.file);
                return Err(NoMemory);
            }
        }
        self.last = Some((kept, Bytes::new(self.alloc)));
        self.finished = false;
        self.started = true;
        Ok(())
    }

    pub fn stop_writing(&mut self)
        ensures { self.new ≡ record self.old { started = false } }
    {
        self.started = false;
    }

    pub fn finish(&mut self)
        ensures { self.new ≡ record self.old { finished = true } }
    {
        self.finished = true;
    }

    // Adds at most `most` bytes to the file that was started last.
    pub fn write(&mut self, piece: &[u8], most: usize) -> Result<usize, NoMemory>
        requires writing { (on_shelf self.old).writing ≡ true }
        requires most { 0 < most }
        ensures bound { IfOk result (λ n. n ≤ length piece.now) }
        ensures most { IfOk result (λ n. n ≤ most) }
        ensures some { IfOk result (λ n. 0 < length piece.now → 0 < n) }
        ensures added { MatchResult result
            (λ n. LastGrows self.old self.new (take n piece.now))
            (λ _. self.new ≡ self.old) }
    {
        let count = piece.len().min(most);
        if let Some(last) = &mut self.last {
            last.1.append(&piece[..count])?;
        }
        Ok(count)
    }

    // Adds the line and a line feed, or nothing.
    pub fn say(&mut self, line: &[u8]) -> Result<(), NoMemory>
        ensures ok { OnOk result (self.new
            ≡ record self.old { said = self.old.said ++ line.now ++ 10 ∷ [] }) }
        ensures err { OnErr result (self.new ≡ self.old) }
    {
        let mut whole = Bytes::new(self.alloc);
        whole.append(line)?;
        whole.push(b'\n')?;
        self.said.append(whole.as_slice())
    }
}
