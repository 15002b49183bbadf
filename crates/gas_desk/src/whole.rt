// Whole files, read and written over any desk.
ghost use Rattle.std.specs.Prelude.{◌≡◌, ◌⊎◌, ◌+◌, ◌-◌, ◌^◌, ◌<◌, ◌≤◌, ◌++◌, ℕ, List, true, false, [], length, Some, None, IsSome, IfOk, OnOk, OnErr, IsErrOf};
ghost use Rattle.gas_desk.specs.Outside.{CountsOn, Rose, SameBut, SameFiles, SameReading, SameMarks, SameMarksBut, SameReads, SameWrites, SameWriting, WriteCause};
ghost use Rattle.gas_desk.specs.Whole.{AddsFront, LongerThan, StoppedWithin, Takes, TookOf, Unstarted};
ghost use Rattle.gas_desk.specs.Stops.{read_stop, write_stop};

use crate::{Desk, DeskStop};
use base_types::{Bytes, NoMemory};
use std::alloc::Global;
use thiserror::Error;

// How many bytes one call reads.
const BUFFER: usize = 65_536;

/// Why a file could not be read whole.
#[derive(Clone, Copy, Debug, PartialEq, Eq, Error)]
pub enum ReadStop {
    /// The desk failed. Its read count of the file has risen.
    #[error("the file could not be read")]
    Failed,
    /// The file is longer than the limit: one byte more than that was taken.
    #[error("the file is too long: reading stopped at byte {taken}")]
    TooLong { taken: u64 },
    /// Memory could not be had.
    #[error("out of memory")]
    NoMemory,
}

/// Why a file could not be written whole.
#[derive(Clone, Copy, Debug, PartialEq, Eq, Error)]
pub enum WriteStop {
    /// The desk failed. Its write count has risen.
    #[error("the file could not be written")]
    Failed,
    /// Memory could not be had.
    #[error("out of memory")]
    NoMemory,
}

impl From<DeskStop> for ReadStop {
    ghost from_gives = { λ stop kept. kept ≡ read_stop stop };

    fn from(stop: DeskStop) -> Self {
        match stop {
            DeskStop::Failed => ReadStop::Failed,
            DeskStop::NoMemory => ReadStop::NoMemory,
        }
    }
}

impl From<NoMemory> for ReadStop {
    ghost use Rattle.gas_desk.specs.declared.whole.ReadStop.{ReadStop};

    ghost from_gives = { λ _ kept. kept ≡ ReadStop.NoMemory };

    fn from(_: NoMemory) -> Self {
        ReadStop::NoMemory
    }
}

impl From<DeskStop> for WriteStop {
    ghost from_gives = { λ stop kept. kept ≡ write_stop stop };

    fn from(stop: DeskStop) -> Self {
        match stop {
            DeskStop::Failed => WriteStop::Failed,
            DeskStop::NoMemory => WriteStop::NoMemory,
        }
    }
}

/// All bytes of the named file, of which there may be `limit`.
///
/// Of a longer file one byte more than `limit` is taken, and it is refused as `TooLong`. No file
/// changes, and nothing is said or counted but what the calls of the desk count.
pub fn read_file<D: Desk>(
    alloc: Global,
    desk: &mut D,
    name: &str,
    limit: u64,
) -> Result<Bytes, ReadStop>
    requires { limit < 2 ^ 64 - 1 }
    ensures bytes { D.tells
        → IfOk result (λ bytes. (D.outside desk.old).files name.now ≡ Some bytes) }
    ensures within { IfOk result (λ bytes. length bytes ≤ limit) }
    ensures failed { IsErrOf result ReadStop.Failed
        → Rose ((D.outside desk.old).read_faults name.now) ((D.outside desk.new).read_faults name.now) }
    ensures taken { (taken : ℕ) → IsErrOf result (ReadStop.TooLong taken) → taken ≡ limit + 1 }
    ensures long { D.tells → (taken : ℕ) → IsErrOf result (ReadStop.TooLong taken)
        → LongerThan limit name.now (D.outside desk.old) }
    ensures took { D.tells → (taken : ℕ) → IsErrOf result (ReadStop.TooLong taken)
        → TookOf taken name.now (D.outside desk.old) (D.outside desk.new) }
    ensures in_time { D.tells → IsErrOf result ReadStop.Failed
        → ((D.outside desk.new).reading ≡ None)
        ⊎ ((taken : ℕ) × (taken ≤ limit)
        × TookOf taken name.now (D.outside desk.old) (D.outside desk.new)) }
    ensures files { D.tells → SameFiles (D.outside desk.old) (D.outside desk.new) }
    ensures said { D.tells → (D.outside desk.new).said ≡ (D.outside desk.old).said }
    ensures writing { SameWriting (D.outside desk.old) (D.outside desk.new) }
    ensures unread { D.counts_exactly → (IsErrOf result ReadStop.Failed → ⊥)
        → SameReads (D.outside desk.old) (D.outside desk.new) }
    ensures unwritten { D.counts_exactly → SameWrites (D.outside desk.old) (D.outside desk.new) }
    ensures marks { D.tells → SameMarks (D.outside desk.old) (D.outside desk.new) }
    ensures counts { CountsOn (D.outside desk.old) (D.outside desk.new) }
{
    desk.start_read(name)?;
    read_rest(alloc, desk, limit)
}

// All that is left of the file being read.
fn read_rest<D: Desk>(alloc: Global, desk: &mut D, limit: u64) -> Result<Bytes, ReadStop>
    requires limit { limit < 2 ^ 64 - 1 }
    requires reading { IsSome (D.outside desk.old).reading }
    ensures bytes { D.tells → IfOk result (λ bytes. (D.outside desk.old).left ≡ bytes) }
    ensures within { IfOk result (λ bytes. length bytes ≤ limit) }
    ensures failed { (n : List ℕ) → (D.outside desk.old).reading ≡ Some n
        → IsErrOf result ReadStop.Failed
        → Rose ((D.outside desk.old).read_faults n) ((D.outside desk.new).read_faults n) }
    ensures taken { (taken : ℕ) → IsErrOf result (ReadStop.TooLong taken) → taken ≡ limit + 1 }
    ensures took { D.tells → (taken : ℕ) → IsErrOf result (ReadStop.TooLong taken)
        → Takes taken (D.outside desk.old) (D.outside desk.new) }
    ensures in_time { D.tells → IsErrOf result ReadStop.Failed
        → (taken : ℕ) × (taken ≤ limit)
        × Takes taken (D.outside desk.old) (D.outside desk.new) }
    ensures files { D.tells → SameFiles (D.outside desk.old) (D.outside desk.new) }
    ensures said { D.tells → (D.outside desk.new).said ≡ (D.outside desk.old).said }
    ensures writing { SameWriting (D.outside desk.old) (D.outside desk.new) }
    ensures unread { D.counts_exactly → (IsErrOf result ReadStop.Failed → ⊥)
        → SameReads (D.outside desk.old) (D.outside desk.new) }
    ensures unwritten { D.counts_exactly → SameWrites (D.outside desk.old) (D.outside desk.new) }
    ensures marks { D.tells → SameMarks (D.outside desk.old) (D.outside desk.new) }
    ensures counts { CountsOn (D.outside desk.old) (D.outside desk.new) }
{
    let mut bytes = Bytes::new(alloc);
    let mut buffer = [0u8; BUFFER];
    while bytes.len() as u64 <= limit {
        let room = limit + 1 - bytes.len() as u64;
        let want = room.min(BUFFER as u64) as usize;
        let count = desk.read(&mut buffer[..want])?;
        if count == 0 {
            return Ok(bytes);
        }
        bytes.append(&buffer[..count])?;
    }
    Err(ReadStop::TooLong { taken: limit + 1 })
}

/// Makes the named file hold these bytes, and finishes it.
///
/// Where the writing didn't start, the file stands as it did before, and none is being written.
/// After another stop it holds a front of the bytes, isn't finished, and is still being written. No
/// other file changes, and nothing is said or counted but what the calls of the desk count.
pub fn write_file<D: Desk>(desk: &mut D, name: &str, bytes: &[u8]) -> Result<(), WriteStop>
    ensures done { D.tells → OnOk result ((D.outside desk.new).files name.now ≡ Some bytes.now) }
    ensures finished { OnOk result ((D.outside desk.new).writing ≡ false) }
    ensures stopped { D.tells → OnErr result (
        Unstarted name.now (D.outside desk.old) (D.outside desk.new)
        ⊎ StoppedWithin name.now bytes.now (D.outside desk.new)) }
    ensures failed { IsErrOf result WriteStop.Failed
        → Rose (D.outside desk.old).write_faults (D.outside desk.new).write_faults }
    ensures others { D.tells → SameBut name.now (D.outside desk.old) (D.outside desk.new) }
    ensures said { D.tells → (D.outside desk.new).said ≡ (D.outside desk.old).said }
    ensures reading { SameReading (D.outside desk.old) (D.outside desk.new) }
    ensures left { D.tells → (D.outside desk.new).left ≡ (D.outside desk.old).left }
    ensures unread { D.counts_exactly → SameReads (D.outside desk.old) (D.outside desk.new) }
    ensures unwritten { D.counts_exactly → (IsErrOf result WriteStop.Failed → ⊥)
        → SameWrites (D.outside desk.old) (D.outside desk.new) }
    ensures marked { D.tells → OnOk result ((D.outside desk.new).finished name.now ≡ true) }
    ensures marks { D.tells → SameMarksBut name.now (D.outside desk.old) (D.outside desk.new) }
    ensures counts { CountsOn (D.outside desk.old) (D.outside desk.new) }
{
    desk.start_write(name)?;
    write_all(desk, bytes)?;
    desk.finish()?;
    Ok(())
}

// Adds all of these bytes to the file that is being written.
fn write_all<D: Desk>(desk: &mut D, bytes: &[u8]) -> Result<(), DeskStop>
    requires { (D.outside desk.old).writing ≡ true }
    ensures done { D.tells
        → OnOk result (AddsFront bytes.now [] (D.outside desk.old) (D.outside desk.new)) }
    ensures stopped { D.tells
        → OnErr result ((rest : List ℕ)
        × AddsFront bytes.now rest (D.outside desk.old) (D.outside desk.new)) }
    ensures others { D.tells
        → SameBut (D.outside desk.old).target (D.outside desk.old) (D.outside desk.new) }
    ensures said { D.tells → (D.outside desk.new).said ≡ (D.outside desk.old).said }
    ensures writing { SameWriting (D.outside desk.old) (D.outside desk.new) }
    ensures reading { SameReading (D.outside desk.old) (D.outside desk.new) }
    ensures left { D.tells → (D.outside desk.new).left ≡ (D.outside desk.old).left }
    ensures unread { D.counts_exactly → SameReads (D.outside desk.old) (D.outside desk.new) }
    ensures unwritten { D.counts_exactly → (IsErrOf result DeskStop.Failed → ⊥)
        → SameWrites (D.outside desk.old) (D.outside desk.new) }
    ensures unmarked { D.tells → (D.outside desk.old).finished (D.outside desk.old).target ≡ false
        → (D.outside desk.new).finished (D.outside desk.old).target ≡ false }
    ensures marks { D.tells
        → SameMarksBut (D.outside desk.old).target (D.outside desk.old) (D.outside desk.new) }
    ensures counts { CountsOn (D.outside desk.old) (D.outside desk.new) }
    ensures cause { WriteCause (D.outside desk.old) (D.outside desk.new) result }
{
    let mut rest = bytes;
    while !rest.is_empty() {
        let count = desk.write(rest)?;
        rest = &rest[count..];
    }
    Ok(())
}
