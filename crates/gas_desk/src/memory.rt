// Files in memory, with calls that fail by their number.
ghost use Rattle.std.specs.Prelude.{◌≡◌, ◌<◌, ◌≤◌, ℕ, List, [], None, Ok, Err, false, IfOk, if◌then◌else◌};
ghost use Rattle.std.specs.Option.{option_map};
ghost use Rattle.gas_desk.specs.Outside.{one_more};
ghost use Rattle.gas_desk.specs.Shelf.{held};

use crate::shelf::Shelf;
use crate::{Desk, DeskStop};
use base_types::{Bytes, List, Name, NoMemory};
use std::alloc::Global;

// Which calls fail by their number.
#[derive(Drop)]
enum Failing {
    // Those with these numbers.
    Stated(List<u64>),
    // All from this number on.
    From(u64),
}

impl Failing {
    ghost use Rattle.gas_desk.specs.Memory.{fails_at};

    // Whether the call with this number fails.
    fn fails(&self, call: u64) -> bool
        ensures { result ≡ fails_at self.now call }
    {
        match self {
            Failing::Stated(calls) => calls.as_slice().contains(&call),
            Failing::From(first) => *first <= call,
        }
    }
}

/// Files in memory, of which stated calls fail. It tells its contents.
///
/// Its calls of `Desk` are numbered from 0, and the number stands still at 2^64 - 1. Each call whose
/// number is stated fails, and each `start_read` of a name that isn't held. These failures and no
/// others are counted. The read count is one number for all names.
#[derive(Drop)]
pub struct MemDesk {
    shelf: Shelf,
    failing: Failing,
    calls: u64,
    read_most: usize,
    write_most: usize,
    read_faults: u64,
    write_faults: u64,
    ghost reads_some: { 0 < read_most },
    ghost writes_some: { 0 < write_most },
}

impl MemDesk {
    ghost use Rattle.gas_desk.specs.Memory.{in_memory, call_number, failing, most_read, most_written, fails_now, Begins};
    ghost use Rattle.gas_desk.specs.declared.memory.Failing.TheVariants.{Stated, From};

    /// Begins with these files, of those with one name the first alone, and nothing said, read,
    /// written, finished or counted. The calls with the numbers in `fails` fail. One call reads at
    /// most `read_most` bytes, and writes at most `write_most`.
    pub fn new(
        alloc: Global,
        files: List<(Name, Bytes)>,
        fails: List<u64>,
        read_most: usize,
        write_most: usize,
    ) -> Result<MemDesk, NoMemory>
        requires read { 0 < read_most }
        requires write { 0 < write_most }
        ensures files { IfOk result (λ desk. (in_memory desk).files ≡ held files) }
        ensures said { IfOk result (λ desk. (in_memory desk).said ≡ []) }
        ensures reading { IfOk result (λ desk. (in_memory desk).reading ≡ None) }
        ensures writing { IfOk result (λ desk. (in_memory desk).writing ≡ false) }
        ensures finished { IfOk result (λ desk.
            (n : List ℕ) → (in_memory desk).finished n ≡ false) }
        ensures read_faults { IfOk result (λ desk.
            (n : List ℕ) → (in_memory desk).read_faults n ≡ 0) }
        ensures write_faults { IfOk result (λ desk. (in_memory desk).write_faults ≡ 0) }
        ensures number { IfOk result (λ desk. call_number desk ≡ 0) }
        ensures fails { IfOk result (λ desk. failing desk ≡ Stated fails) }
        ensures read_most { IfOk result (λ desk. most_read desk ≡ read_most) }
        ensures write_most { IfOk result (λ desk. most_written desk ≡ write_most) }
    {
        MemDesk::with(alloc, files, Failing::Stated(fails), read_most, write_most)
    }

    // As `new`, but that each call fails from this number on.
    pub(crate) fn failing_from(
        alloc: Global,
        files: List<(Name, Bytes)>,
        from: u64,
        read_most: usize,
        write_most: usize,
    ) -> Result<MemDesk, NoMemory>
        requires read { 0 < read_most }
        requires write { 0 < write_most }
        ensures { IfOk result (λ desk. Begins files (From from) read_most write_most desk) }
    {
        MemDesk::with(alloc, files, Failing::From(from), read_most, write_most)
    }

    // Begins with these files, where these calls fail.
    fn with(
        alloc: Global,
        files: List<(Name, Bytes)>,
        failing: Failing,
        read_most: usize,
        write_most: usize,
    ) -> Result<MemDesk, NoMemory>
        requires read { 0 < read_most }
        requires write { 0 < write_most }
        ensures { IfOk result (λ desk. Begins files failing read_most write_most desk) }
    {
        Ok(MemDesk {
            shelf: Shelf::new(alloc, files),
            failing,
            calls: 0,
            read_most,
            write_most,
            read_faults: 0,
            write_faults: 0,
        })
    }

    /// What the named file holds. None where there is no such file.
    pub fn file(&self, name: &str) -> Option<&[u8]>
        ensures { option_map (λ s. s.now) result ≡ (in_memory self.entry.now).files name.now }
    {
        self.shelf.file(name)
    }

    /// The lines said, each with its line feed.
    pub fn said(&self) -> &[u8]
        ensures { result.now ≡ (in_memory self.now).said }
    {
        self.shelf.said()
    }

    // Numbers a call, and says whether its number is one of those that fail.
    fn next_call_fails(&mut self) -> bool
        ensures fails { result ≡ fails_now self.old }
        ensures next { self.new ≡ record self.old { calls = one_more self.old.calls } }
    {
        let call = self.calls;
        self.calls = self.calls.saturating_add(1);
        self.failing.fails(call)
    }

    // Counts a failure to read.
    fn fail_read(&mut self) -> DeskStop
        ensures stop { result ≡ DeskStop.Failed }
        ensures counted { self.new
            ≡ record self.old { read_faults = one_more self.old.read_faults } }
        ensures later { self.old.read_faults ≤ self.new.read_faults }
    {
        self.read_faults = self.read_faults.saturating_add(1);
        DeskStop::Failed
    }

    // Numbers a call that writes or says, and fails where its number is one of those that fail.
    fn number_write(&mut self) -> Result<(), DeskStop>
        ensures result { result ≡ (if fails_now self.old then Err DeskStop.Failed else Ok tt) }
        ensures numbered { self.new ≡ record self.old {
          calls = one_more self.old.calls;
          write_faults = (if fails_now self.old
              then one_more self.old.write_faults
              else self.old.write_faults);
        } }
        ensures later { self.old.write_faults ≤ self.new.write_faults }
    {
        if self.next_call_fails() {
            self.write_faults = self.write_faults.saturating_add(1);
            return Err(DeskStop::Failed);
        }
        Ok(())
    }
}

impl Desk for MemDesk {
    ghost use Rattle.gas_desk.specs.Memory.{in_memory, TakesTurn};

    ghost tells = { Unit {0} };

    ghost counts_exactly = { Unit {0} };

    ghost outside = { in_memory };

    ghost beyond = { TakesTurn };

    fn start_read(&mut self, name: &str) -> Result<(), DeskStop> {
        self.shelf.stop_reading();
        if self.next_call_fails() || self.shelf.file(name).is_none() {
            return Err(self.fail_read());
        }
        Ok(self.shelf.start_read(name)?)
    }

    fn read(&mut self, buf: &mut [u8]) -> Result<usize, DeskStop> {
        if self.next_call_fails() {
            return Err(self.fail_read());
        }
        Ok(self.shelf.read(buf, self.read_most))
    }

    fn start_write(&mut self, name: &str) -> Result<(), DeskStop> {
        self.shelf.stop_writing();
        self.number_write()?;
        Ok(self.shelf.start_write(name)?)
    }

    fn write(&mut self, piece: &[u8]) -> Result<usize, DeskStop> {
        self.number_write()?;
        Ok(self.shelf.write(piece, self.write_most)?)
    }

    fn finish(&mut self) -> Result<(), DeskStop> {
        self.number_write()?;
        self.shelf.finish();
        Ok(())
    }

    fn say(&mut self, line: &[u8]) -> Result<(), DeskStop> {
        self.number_write()?;
        Ok(self.shelf.say(line)?)
    }
}
