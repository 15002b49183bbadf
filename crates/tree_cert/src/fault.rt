// What may be wrong with lines.
ghost use Rattle.std.specs.Prelude.{◌≡◌};
ghost use Rattle.tree_cert.specs.declared.fault.LineFault.TheVariants as line_fault;

use base_types::NoMemory;

/// Why bytes are no line.
#[derive(Clone, Copy, Debug, PartialEq, Eq)]
pub enum LineFault {
    /// The bytes are of no line's form, or don't end with a line feed.
    NotLine,
    /// The bytes are of a line's form, but a number doesn't fit 128 signed bits, or a position 32 bits.
    Wide,
    /// Memory could not be had.
    NoMemory,
}

impl From<NoMemory> for LineFault {
    ghost from_gives = { λ _ e. e ≡ line_fault.NoMemory };

    fn from(_: NoMemory) -> LineFault {
        LineFault::NoMemory
    }
}

/// What is wrong with a line of a tree at its place, or with the end of its text.
#[derive(Clone, Copy, Debug, PartialEq, Eq)]
pub enum FaultKind {
    /// The line is of no form, or has no line feed, or the text begins with another line than a first line, or a first
    /// line stands at another place.
    NotTree,
    /// The line is of its form, but a number in it doesn't fit 128 signed bits, or a position 32 bits.
    WideNumber,
    /// The step isn't allowed in its box, or the closing doesn't hold there.
    BadStep,
    /// The branch isn't allowed in its box, a head stands within a box, or another line where a head is expected.
    WrongBranch,
    /// `end` stands where the tree isn't whole, or another line where it is, or anything after `end`; or the text ends
    /// before `end`.
    WrongEnd,
}

/// The first line that offends, numbered from 1; at the end of a text it is the count of lines and one.
#[derive(Clone, Copy, Debug, PartialEq, Eq)]
pub enum TreeFault {
    /// The line is of no form, or has no line feed, or the text begins with another line than a first line, or a first
    /// line stands at another place.
    NotTree { line: u64 },
    /// The line is of its form, but a number in it doesn't fit 128 signed bits, or a position 32 bits.
    WideNumber { line: u64 },
    /// The step isn't allowed in its box, or the closing doesn't hold there.
    BadStep { line: u64 },
    /// The branch isn't allowed in its box, a head stands within a box, or another line where a head is expected.
    WrongBranch { line: u64 },
    /// `end` stands where the tree isn't whole, or another line where it is, or anything after `end`; or the text ends
    /// before `end`.
    WrongEnd { line: u64 },
    /// Memory could not be had. It is tied to nothing else.
    NoMemory,
}
