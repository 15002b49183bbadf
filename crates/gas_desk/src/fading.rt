// Files in memory, with calls that fail from a number on.
ghost use Rattle.std.specs.Prelude.{◌≡◌, ◌<◌, ℕ, List, [], None, false, IfOk};
ghost use Rattle.std.specs.Option.{option_map};
ghost use Rattle.gas_desk.specs.Shelf.{held};

use crate::memory::MemDesk;
use crate::{Desk, DeskStop};
use base_types::{Bytes, List, Name, NoMemory};
use std::alloc::Global;

/// Files in memory, of which each call fails from a number on. It tells its contents.
///
/// It is a `MemDesk` but for which calls fail.
#[derive(Drop)]
pub struct Fading {
    desk: MemDesk,
}

impl Fading {
    ghost use Rattle.gas_desk.specs.Memory.{call_number, failing, most_read, most_written};
    ghost use Rattle.gas_desk.specs.Fading.{fading};
    ghost use Rattle.gas_desk.specs.declared.memory.Failing.TheVariants.{From};

    /// Begins with these files, of those with one name the first alone, and nothing said, read,
    /// written, finished or counted. The calls with the number `from` or more fail. One call reads
    /// at most `read_most` bytes, and writes at most `write_most`.
    pub fn new(
        alloc: Global,
        files: List<(Name, Bytes)>,
        from: u64,
        read_most: usize,
        write_most: usize,
    ) -> Result<Fading, NoMemory>
        requires read { 0 < read_most }
        requires write { 0 < write_most }
        ensures files { IfOk result (λ desk. (fading desk).files ≡ held files) }
        ensures said { IfOk result (λ desk. (fading desk).said ≡ []) }
        ensures reading { IfOk result (λ desk. (fading desk).reading ≡ None) }
        ensures writing { IfOk result (λ desk. (fading desk).writing ≡ false) }
        ensures finished { IfOk result (λ desk.
            (n : List ℕ) → (fading desk).finished n ≡ false) }
        ensures read_faults { IfOk result (λ desk.
            (n : List ℕ) → (fading desk).read_faults n ≡ 0) }
        ensures write_faults { IfOk result (λ desk. (fading desk).write_faults ≡ 0) }
        ensures number { IfOk result (λ desk. call_number desk.desk ≡ 0) }
        ensures fails { IfOk result (λ desk. failing desk.desk ≡ From from) }
        ensures read_most { IfOk result (λ desk. most_read desk.desk ≡ read_most) }
        ensures write_most { IfOk result (λ desk. most_written desk.desk ≡ write_most) }
    {
        let desk = MemDesk::failing_from(alloc, files, from, read_most, write_most)?;
        Ok(Fading { desk })
    }

    /// What the named file holds. None where there is no such file.
    pub fn file(&self, name: &str) -> Option<&[u8]>
        ensures { option_map (λ s. s.now) result ≡ (fading self.entry.now).files name.now }
    {
        self.desk.file(name)
    }

    /// The lines said, each with its line feed.
    pub fn said(&self) -> &[u8]
        ensures { result.now ≡ (fading self.now).said }
    {
        self.desk.said()
    }
}

impl Desk for Fading {
    ghost use Rattle.gas_desk.specs.Fading.{fading, TakesFadingTurn};

    ghost tells = { Unit {0} };

    ghost counts_exactly = { Unit {0} };

    ghost outside = { fading };

    ghost beyond = { TakesFadingTurn };

    fn start_read(&mut self, name: &str) -> Result<(), DeskStop> {
        self.desk.start_read(name)
    }

    fn read(&mut self, buf: &mut [u8]) -> Result<usize, DeskStop> {
        self.desk.read(buf)
    }

    fn start_write(&mut self, name: &str) -> Result<(), DeskStop> {
        self.desk.start_write(name)
    }

    fn write(&mut self, piece: &[u8]) -> Result<usize, DeskStop> {
        self.desk.write(piece)
    }

    fn finish(&mut self) -> Result<(), DeskStop> {
        self.desk.finish()
    }

    fn say(&mut self, line: &[u8]) -> Result<(), DeskStop> {
        self.desk.say(line)
    }
}
