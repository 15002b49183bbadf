// By what a stable box is split.
ghost use Rattle.std.specs.Prelude.{◌≡◌, ◌+◌, length, IfOk, IfSome, OnOk};
ghost use Rattle.look_ahead.specs.Views.{CanFork, CanForkAll, IsStableView};

use crate::settling::stays_open;
use crate::tools::Tools;
use box_pool::{BoxView, children_of};
use box_split::{Fork, branch};
use gas_model::{NoMemory, PartState, Problem};
use std::alloc::Global;

// How many of the children of a box by a fork stay open; no more than `most` are told apart.
fn left_by(
    alloc: Global,
    p: &Problem,
    view: &BoxView,
    tools: &mut Tools,
    fork: Fork,
    most: u32,
) -> Result<u32, NoMemory>
    requires view { IsStableView p.now view.now }
    requires size { tools.old.queue.size ≡ length p.now.nodes + length p.now.arcs }
    requires fork { CanFork p.now view.now fork }
    ensures { tools.new.queue.size ≡ tools.old.queue.size }
{
    let Some(children) = children_of(alloc, p, &view.part, fork)? else {
        return Ok(most);
    };
    let mut left: u32 = 0;
    for head in children.heads.as_slice() {
        if left >= most || !tools.take_trial(p) {
            return Ok(most);
        }
        if stays_open(alloc, p, &mut tools.queue, view, *head)? {
            left = left.saturating_add(1);
        }
    }
    Ok(left)
}

fn is_picked(part: &PartState, group: u32) -> bool {
    match part.picks.as_slice().get(group as usize) {
        Some(pick) => pick.is_some(),
        None => true,
    }
}

// Adds the groups that aren't picked.
fn add_groups(p: &Problem, view: &BoxView, forks: &mut Vec<Fork>) -> Result<(), NoMemory>
    requires view { IsStableView p.now view.now }
    requires forks { CanForkAll p.now view.now forks.old.items }
    ensures { OnOk result (CanForkAll p.now view.now forks.new.items) }
{
    for group in 0..p.groups().len() as u32 {
        if !is_picked(&view.part, group) {
            forks.push(Fork::Group(group))?;
        }
    }
    Ok(())
}

// Adds the free arcs.
fn add_arcs(p: &Problem, view: &BoxView, forks: &mut Vec<Fork>) -> Result<(), NoMemory>
    requires view { IsStableView p.now view.now }
    requires forks { CanForkAll p.now view.now forks.old.items }
    ensures { OnOk result (CanForkAll p.now view.now forks.new.items) }
{
    for arc in 0..p.arcs().len() as u32 {
        if p.is_free(&view.part, arc) {
            forks.push(Fork::Free(arc))?;
        }
    }
    Ok(())
}

// The first of these forks of those that leave the fewest children open.
#[tactic(auto, using(crate::proofs::Begins::one_of))]
fn best(
    alloc: Global,
    p: &Problem,
    view: &BoxView,
    tools: &mut Tools,
    forks: &[Fork],
) -> Result<Option<Fork>, NoMemory>
    requires view { IsStableView p.now view.now }
    requires forks { CanForkAll p.now view.now forks.now }
    requires size { tools.old.queue.size ≡ length p.now.nodes + length p.now.arcs }
    ensures size { tools.new.queue.size ≡ tools.old.queue.size }
    ensures fork { IfOk result (λ o. IfSome o (CanFork p.now view.now)) }
{
    let mut best = None;
    let mut most = u32::MAX;
    for fork in forks {
        if most == 0 {
            break;
        }
        let left = left_by(alloc, p, view, tools, *fork, most)?;
        if left < most {
            most = left;
            best = Some(*fork);
        }
    }
    Ok(best)
}

// The branch of a box.
fn forced(p: &Problem, view: &BoxView) -> Fork
    requires { IsStableView p.now view.now }
    ensures { CanFork p.now view.now result }
{
    let _nodes = p.nodes();
    branch(p, &view.shape, &view.part, &view.bounds, view.turn)
}

/// The fork of a stable box: of the choices the one that leaves the fewest children open, groups before arcs; where none is
/// left, its branch.
#[tactic(auto, using(crate::proofs::Begins::none_yet))]
pub fn fork_of(
    alloc: Global,
    p: &Problem,
    view: &BoxView,
    tools: &mut Tools,
) -> Result<Fork, NoMemory>
    requires view { IsStableView p.now view.now }
    requires size { tools.old.queue.size ≡ length p.now.nodes + length p.now.arcs }
    ensures size { tools.new.queue.size ≡ tools.old.queue.size }
    ensures fork { IfOk result (CanFork p.now view.now) }
{
    let mut choices = Vec::new(alloc);
    add_groups(p, view, &mut choices)?;
    add_arcs(p, view, &mut choices)?;
    match best(alloc, p, view, tools, &choices)? {
        Some(fork) => Ok(fork),
        None => Ok(forced(p, view)),
    }
}
