// Why a table of resistances is refused.
ghost use Rattle.std.specs.Prelude.{◌≡◌};
ghost use Rattle.file_faults.specs.declared.table.ResFault.TheVariants as fault;

use base_types::NoMemory;

/// Why a table is refused.
#[derive(Clone, Copy, Debug, PartialEq, Eq)]
pub enum ResFault {
    /// The first record that is no row, counted from 1. Blank lines are no records.
    BadRow { row: u64 },
    /// Memory could not be had.
    NoMemory,
}

impl From<NoMemory> for ResFault {
    ghost from_gives = { λ _ e. e ≡ fault.NoMemory };

    fn from(_: NoMemory) -> ResFault {
        ResFault::NoMemory
    }
}
