ghost use Rattle.std.specs.Prelude.{◌≡◌};
ghost use Rattle.flat_text.specs.declared.fault.LineFault.TheVariants as line_fault;

use gas_model::NoMemory;

/// What is wrong with a line.
#[derive(Clone, Copy, Debug, PartialEq, Eq)]
pub enum LineFault {
    NotFlat,
    OverLimit,
    NoMemory,
}

impl From<NoMemory> for LineFault {
    ghost from_gives = { λ _ e. e ≡ line_fault.NoMemory };

    fn from(_: NoMemory) -> LineFault {
        LineFault::NoMemory
    }
}
