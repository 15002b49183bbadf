// The decisions on the valve.
ghost use Rattle.std.specs.Prelude.{◌≡◌, IfOk};
ghost use Rattle.make_net.specs.Made.{made_decision, made_group, made_groups};

use crate::names::arc_name;
use gas_model::{Allow, DecisionText, GroupText, List, Name, NoMemory, SetText};
use std::alloc::Global;

/// A decision on the valve.
fn made_decision(alloc: Global, id: &str, allow: Allow) -> Result<DecisionText, NoMemory>
    ensures { IfOk result (λ decision. decision ≡ made_decision id.now allow) }
{
    let mut sets = List::new(alloc);
    sets.push(SetText {
        arc: arc_name(alloc, 0)?,
        allow,
    })?;
    Ok(DecisionText {
        id: Name::of(alloc, id)?,
        sets,
    })
}

/// The group of both decisions on the valve.
fn made_group(alloc: Global) -> Result<GroupText, NoMemory>
    ensures { IfOk result (λ group. group ≡ made_group) }
{
    let mut decisions = List::new(alloc);
    decisions.push(made_decision(alloc, "shut", Allow::Shut)?)?;
    decisions.push(made_decision(alloc, "pass", Allow::Opened)?)?;
    Ok(GroupText {
        id: Name::of(alloc, "g")?,
        decisions,
    })
}

/// The groups of so many nodes: none where there is no valve.
pub fn made_groups(alloc: Global, count: u32) -> Result<List<GroupText>, NoMemory>
    ensures { IfOk result (λ groups. groups ≡ made_groups count) }
{
    let mut groups = List::new(alloc);
    if count >= 2 {
        groups.push(made_group(alloc)?)?;
    }
    Ok(groups)
}
