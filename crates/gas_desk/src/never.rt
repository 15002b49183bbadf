// Files in memory on which only want of memory stops a call.
ghost use Rattle.std.specs.Prelude.{◌≡◌, ℕ, List, [], Some, None, false, IfOk, unwrap_or};
ghost use Rattle.gas_desk.specs.Shelf.{held};
ghost use Rattle.gas_desk.specs.Never.{never_failing, DoesNotFail};

use crate::shelf::Shelf;
use crate::{Desk, DeskStop};
use base_types::{Bytes, List, Name, NoMemory};
use std::alloc::Global;

/// Files in memory. All counts are 0 always: only want of memory stops a call. It tells its
/// contents.
#[derive(Drop)]
pub struct NeverFails {
    shelf: Shelf,
}

impl NeverFails {
    /// Begins with these files, of those with one name the first alone. Any other name reads as an
    /// empty file.
    pub fn new(alloc: Global, files: List<(Name, Bytes)>) -> Result<NeverFails, NoMemory>
        ensures files { IfOk result (λ desk.
            (never_failing desk).files ≡ (λ name. Some (unwrap_or (held files name) []))) }
        ensures said { IfOk result (λ desk. (never_failing desk).said ≡ []) }
        ensures reading { IfOk result (λ desk. (never_failing desk).reading ≡ None) }
        ensures writing { IfOk result (λ desk. (never_failing desk).writing ≡ false) }
        ensures finished { IfOk result (λ desk.
            (n : List ℕ) → (never_failing desk).finished n ≡ false) }
        ensures read_faults { IfOk result (λ desk.
            (n : List ℕ) → (never_failing desk).read_faults n ≡ 0) }
        ensures write_faults { IfOk result (λ desk. (never_failing desk).write_faults ≡ 0) }
    {
        Ok(NeverFails {
            shelf: Shelf::new(alloc, files),
        })
    }
}

impl Desk for NeverFails {
    ghost tells = { Unit {0} };

    ghost counts_exactly = { Unit {0} };

    ghost outside = { never_failing };

    ghost beyond = { DoesNotFail };

    fn start_read(&mut self, name: &str) -> Result<(), DeskStop> {
        Ok(self.shelf.start_read(name)?)
    }

    fn read(&mut self, buf: &mut [u8]) -> Result<usize, DeskStop> {
        Ok(self.shelf.read(buf, usize::MAX))
    }

    fn start_write(&mut self, name: &str) -> Result<(), DeskStop> {
        Ok(self.shelf.start_write(name)?)
    }

    fn write(&mut self, piece: &[u8]) -> Result<usize, DeskStop> {
        Ok(self.shelf.write(piece, usize::MAX)?)
    }

    fn finish(&mut self) -> Result<(), DeskStop> {
        self.shelf.finish();
        Ok(())
    }

    fn say(&mut self, line: &[u8]) -> Result<(), DeskStop> {
        Ok(self.shelf.say(line)?)
    }
}
