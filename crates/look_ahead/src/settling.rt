// Boxes that are settled, for the tree or for trial.
ghost use Rattle.std.specs.Prelude.{◌≡◌, ◌+◌, length, IfOk};
ghost use Rattle.stable_sweep.specs.Settling.{SettledAs};
ghost use Rattle.box_pool.specs.Pools.{ViewFits, box_of_view};
ghost use Rattle.look_ahead.specs.Views.{CanBegin, IsReady, IsStableView};

use crate::children::child_of;
use base_types::shared;
use box_pool::BoxView;
use gas_model::{List, NoMemory, Problem};
use stable_sweep::{LawQueue, Settled, settle_child};
use std::alloc::Global;
use tree_cert::{Head, Step};

/// Settles a box, and gives the steps in order.
pub fn settled(
    alloc: Global,
    p: &Problem,
    queue: &mut LawQueue,
    view: &mut BoxView,
) -> Result<(List<Step>, Settled), NoMemory>
    requires ready { IsReady p.now view.old }
    requires size { queue.old.size ≡ length p.now.nodes + length p.now.arcs }
    ensures size { queue.new.size ≡ queue.old.size }
    ensures fits { IfOk result (λ r. ViewFits p.now view.new) }
    ensures settled { IfOk result (λ r. SettledAs p.now (box_of_view view.new) r.1) }
{
    let mut steps = List::new(alloc);
    let mut bounds = view.bounds.copy()?;
    let end = settle_child(
        alloc,
        p,
        &view.shape,
        &view.part,
        &mut bounds,
        view.head,
        queue,
        &mut steps,
    )?;
    view.bounds = shared(alloc, bounds)?;
    Ok((steps, end))
}

/// Whether the child of a stable box by this head stays open. It is settled for trial: its steps are thrown away.
pub fn stays_open(
    alloc: Global,
    p: &Problem,
    queue: &mut LawQueue,
    parent: &BoxView,
    head: Head,
) -> Result<bool, NoMemory>
    requires parent { IsStableView p.now parent.now }
    requires begins { CanBegin p.now parent.now head }
    requires size { queue.old.size ≡ length p.now.nodes + length p.now.arcs }
    ensures { queue.new.size ≡ queue.old.size }
{
    let mut child = child_of(alloc, p, parent, head, 0)?;
    let (_steps, end) = settled(alloc, p, queue, &mut child)?;
    Ok(matches!(end, Settled::Stable))
}
