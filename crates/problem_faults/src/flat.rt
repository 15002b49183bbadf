// Why a flat text is no problem.
ghost use Rattle.std.specs.Prelude.{◌≡◌};
ghost use Rattle.problem_faults.specs.declared.flat.FlatFault.TheVariants as flat_fault;

use gas_model::{ModelFault, NoMemory};

/// Why a text is no problem. Lines are numbered from 1.
#[derive(Debug, Drop)]
pub enum FlatFault {
    /// The line is of no form that stands at its place, or has no line feed. A text without `end` has this fault at
    /// the line after its last one.
    NotFlat { line: u64 },
    /// The line is of its form, but a number or an id in it lies outside its limits, or a lower number lies above its
    /// upper one.
    OverLimit { line: u64 },
    /// The rows that the lines spell make no problem.
    Model(ModelFault),
    /// Memory could not be had.
    NoMemory,
}

impl From<NoMemory> for FlatFault {
    ghost from_gives = { λ _ e. e ≡ flat_fault.NoMemory };

    fn from(_: NoMemory) -> FlatFault {
        FlatFault::NoMemory
    }
}
