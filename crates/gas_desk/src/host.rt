// The real files and the standard output.
ghost use Rattle.std.specs.Prelude.{◌≡◌, ◌≤◌, ℕ, List, None, false, Ok, Err, MatchResult, if◌then◌else◌};
ghost use Rattle.std.specs.IoError.{error_kind};
ghost use Rattle.gas_desk.specs.Outside.{one_more};
ghost use Rattle.gas_desk.specs.Call.{CountsFailure, has_failed};
ghost use Rattle.gas_desk.specs.Host.{on_host, stop_of};

use crate::{Desk, DeskStop};
use base_types::Name;
use std::alloc::Global;
use std::io::{ErrorKind, Read, Write};
use std::rt::Files;
use std::{fs, io};

/// The real files and the standard output. Of their contents it tells nothing.
///
/// It counts each error other than want of memory, and a write that takes nothing of a piece that
/// isn't empty. The read count is one number for all names.
#[derive(Drop)]
pub struct HostDesk<R: Files + Print + Clone + Drop> {
    rt: R,
    alloc: Global,
    reading: Option<(Name, R::File)>,
    writing: Option<R::File>,
    read_faults: u64,
    write_faults: u64,
}

impl<R: Files + Print + Clone + Drop> HostDesk<R> {
    /// Begins with nothing counted, read or written. It keeps what it is handed, and takes no
    /// memory.
    pub fn new(rt: R, alloc: Global) -> HostDesk<R>
        ensures reading { (on_host result).reading ≡ None }
        ensures writing { (on_host result).writing ≡ false }
        ensures read_faults { (n : List ℕ) → (on_host result).read_faults n ≡ 0 }
        ensures write_faults { (on_host result).write_faults ≡ 0 }
    {
        HostDesk {
            rt,
            alloc,
            reading: None,
            writing: None,
            read_faults: 0,
            write_faults: 0,
        }
    }
}

// Counts an error other than want of memory.
fn counted<T>(outcome: io::Result<T>, faults: &mut u64) -> Result<T, DeskStop>
    ensures outcome { MatchResult outcome
        (λ value. result ≡ Ok value)
        (λ error. result ≡ Err (stop_of (error_kind error))) }
    ensures counted { faults.new
        ≡ (if has_failed result then one_more faults.old else faults.old) }
    ensures later { faults.old ≤ faults.new }
{
    match outcome {
        Ok(value) => Ok(value),
        Err(error) => match error.kind() {
            ErrorKind::OutOfMemory => Err(DeskStop::NoMemory),
            _ => {
                *faults = faults.saturating_add(1);
                Err(DeskStop::Failed)
            }
        },
    }
}

impl<R: Files + Print + Clone + Drop> Desk for HostDesk<R> {
    ghost tells = { ⊥ };

    ghost counts_exactly = { Unit {0} };

    ghost outside = { on_host };

    ghost beyond = { λ call old new outcome.
        CountsFailure call (on_host old) (on_host new) outcome };

    fn start_read(&mut self, name: &str) -> Result<(), DeskStop> {
        self.reading = None;
        let kept = Name::of(self.alloc, name)?;
        let file = counted(fs::open(&self.rt, name), &mut self.read_faults)?;
        self.reading = Some((kept, file));
        Ok(())
    }

    fn read(&mut self, buf: &mut [u8]) -> Result<usize, DeskStop> {
        match &mut self.reading {
            Some(reading) => counted(reading.1.read(buf), &mut self.read_faults),
            None => unreachable!(),
        }
    }

    fn start_write(&mut self, name: &str) -> Result<(), DeskStop> {
        self.writing = None;
        let file = counted(fs::create(&self.rt, name), &mut self.write_faults)?;
        self.writing = Some(file);
        Ok(())
    }

    fn write(&mut self, piece: &[u8]) -> Result<usize, DeskStop> {
        let Some(file) = &mut self.writing else {
            unreachable!()
        };
        let count = counted(file.write(piece), &mut self.write_faults)?;
        if count == 0 && !piece.is_empty() {
            self.write_faults = self.write_faults.saturating_add(1);
            return Err(DeskStop::Failed);
        }
        Ok(count)
    }

    fn finish(&mut self) -> Result<(), DeskStop> {
        let Some(file) = &mut self.writing else {
            unreachable!()
        };
        counted(file.flush(), &mut self.write_faults)?;
        self.writing = None;
        Ok(())
    }

    fn say(&mut self, line: &[u8]) -> Result<(), DeskStop> {
        counted(self.rt.write_all(line), &mut self.write_faults)?;
        counted(self.rt.write_all(b"\n"), &mut self.write_faults)
    }
}
