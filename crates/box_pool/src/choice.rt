// Part states in which one more choice is made.
ghost use Rattle.std.specs.Prelude.{◌≡◌, ◌<◌, length, IfOk};
ghost use Rattle.tree_rules.specs.Branches.{with_pick, with_state};

use gas_model::{ArcState, List, NoMemory, PartState};
use std::alloc::Global;

// The same items once more.
fn copied<T: Copy + Drop>(alloc: Global, items: &[T]) -> Result<List<T>, NoMemory>
    ensures { IfOk result (λ copy. copy ≡ items.now) }
{
    let mut copy = List::new(alloc);
    for item in items {
        copy.push(*item)?;
    }
    Ok(copy)
}

// The same part state once more.
fn copy_part(alloc: Global, part: &PartState) -> Result<PartState, NoMemory>
    ensures { IfOk result (λ copy. copy ≡ part.now) }
{
    Ok(PartState {
        picks: copied(alloc, part.picks.as_slice())?,
        states: copied(alloc, part.states.as_slice())?,
    })
}

/// The part state in which a decision of a group is picked too.
pub fn with_pick(
    alloc: Global,
    part: &PartState,
    group: u32,
    decision: u32,
) -> Result<PartState, NoMemory>
    requires { group < length part.now.picks }
    ensures { IfOk result (λ more. more ≡ with_pick part.now group decision) }
{
    let mut more = copy_part(alloc, part)?;
    more.picks.put(group as usize, Some(decision));
    Ok(more)
}

/// The part state in which an arc is in this state too.
pub fn with_state(
    alloc: Global,
    part: &PartState,
    arc: u32,
    state: ArcState,
) -> Result<PartState, NoMemory>
    requires { arc < length part.now.states }
    ensures { IfOk result (λ more. more ≡ with_state part.now arc state) }
{
    let mut more = copy_part(alloc, part)?;
    more.states.put(arc as usize, Some(state));
    Ok(more)
}
