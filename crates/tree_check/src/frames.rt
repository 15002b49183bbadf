// Branches that wait for children, and what it takes to go back to their boxes.
ghost use Rattle.std.specs.Prelude.{◌≡◌, OnOk};
ghost use Rattle.tree_check.specs.Undo.{noted};

use crate::stack::Stack;
use gas_model::{ArcState, Ends, NoMemory, Var};

/// A change of the box: what the ends of a variable were, the pick of a group, or the state named for an arc.
#[derive(Clone, Copy, Debug, PartialEq, Eq)]
pub enum Change {
    Moved { var: Var, ends: Ends },
    Picked { group: u32, pick: Option<u32> },
    Named { arc: u32, state: Option<ArcState> },
}

/// What is expected after a branch and some of its children.
#[derive(Debug, Drop)]
pub enum Expected {
    /// The decisions of a group from `next` on, of which there are `count`.
    Decisions { group: u32, next: u32, count: u32 },
    /// These states of an arc.
    States { arc: u32, left: Stack<ArcState> },
    /// Both halves of a variable.
    Halves { var: Var },
    /// The upper half of a variable, which begins at this value.
    UpperHalf { var: Var, value: i128 },
    Over,
}

/// A branch, and the changes of the box since it stood there, the newest on top.
#[derive(Debug, Drop)]
pub struct Frame {
    pub expected: Expected,
    pub changes: Stack<Change>,
}

/// Notes a change at the nearest branch, if there is one.
pub fn note_change(frames: &mut Stack<Frame>, change: Change) -> Result<(), NoMemory>
    ensures { OnOk result (frames.new ≡ noted change frames.old) }
{
    match frames.pop() {
        None => Ok(()),
        Some(mut frame) => {
            frame.changes.push(change)?;
            frames.push(frame)
        }
    }
}
