// Why a text is no refutation.
ghost use Rattle.std.specs.Prelude.{◌≡◌};
ghost use Rattle.refuting_tree.specs.declared.fault.RefutingFault.TheVariants as refuting;

use gas_model::NoMemory;
use tree_check::TreeFault;

/// Why a text refutes nothing.
#[derive(Clone, Copy, Debug, PartialEq, Eq)]
pub enum RefutingFault {
    /// The checker finds this fault, which is never its want of memory.
    Tree(TreeFault),
    /// The text passes, but leaves boxes open, of which the first ends in this line, counted from 1.
    LeftOpen { line: u64 },
    /// Memory could not be had. It is tied to nothing else.
    NoMemory,
}

impl From<NoMemory> for RefutingFault {
    ghost from_gives = { λ _ e. e ≡ refuting.NoMemory };

    fn from(_: NoMemory) -> RefutingFault {
        RefutingFault::NoMemory
    }
}
