// The reading of one input file.
ghost use Rattle.std.specs.Prelude.{◌≡◌, ◌≤◌, ◌<◌, ◌^◌, [], ◌∷◌, Some, length, IfOk};
ghost use Rattle.command_core.specs.Gates.{Reads, any_bytes, gate_of};
ghost use Rattle.command_core.specs.Stops.{refusal, stop_in};

use crate::{InputFault, InputFile, Stop};
use gas_desk::{Desk, ReadStop, read_file};
use gas_model::Bytes;
use std::alloc::Global;

/// The most bytes that a text may have which is read as a whole.
pub const TEXT_LIMIT: u64 = 67_108_864;

/// The bytes of the named file, which may have so many.
pub fn read_input<D: Desk>(
    alloc: Global,
    desk: &mut D,
    name: &str,
    file: InputFile,
    limit: u64,
) -> Result<Bytes, Stop>
    requires { limit < 2 ^ 63 }
    ensures bytes { D.tells → IfOk result (λ bytes. (D.outside desk.old).files name.now ≡ Some bytes) }
    ensures within { IfOk result (λ bytes. length bytes ≤ limit) }
    ensures reads { Reads D.tells D.counts_exactly (gate_of file limit any_bytes name.now ∷ []) (D.outside desk.old) (D.outside desk.new) (stop_in result) }
{
    match read_file(alloc, desk, name, limit) {
        Ok(bytes) => Ok(bytes),
        Err(ReadStop::Failed) => Err(Stop::ReadFault),
        Err(ReadStop::TooLong { .. }) => Err(Stop::TooLong { file }),
        Err(ReadStop::NoMemory) => Err(Stop::NoMemory),
    }
}

/// How reading ends where the bytes of this file have this fault: it is refused, but want of memory is passed on as such.
pub fn refuse(file: InputFile, fault: InputFault) -> Stop
    ensures { result ≡ refusal file fault }
{
    if fault.is_want() {
        Stop::NoMemory
    } else {
        Stop::BadInput { file, fault }
    }
}
