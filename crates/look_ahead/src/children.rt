// The boxes of children.
ghost use Rattle.std.specs.Prelude.{◌≡◌, ◌<◌, length, Some, IfOk};
ghost use Rattle.gas_model.specs.Choices.{PartFits};
ghost use Rattle.tree_rules.specs.Branches.{with_pick, with_state};
ghost use Rattle.topo.specs.Shapes.{IsShapeOf};
ghost use Rattle.box_pool.specs.Origins.{CanHalve, CanPick, bounds_by, part_by};
ghost use Rattle.look_ahead.specs.Views.{CanBegin, IsReady, IsStableView, KeepsShape};

use base_types::{another_owner, shared};
use box_core::VarBox;
use box_pool::{BoxView, PoolGrid};
use gas_model::{ArcState, List, NoMemory, PartState, Problem};
use std::alloc::Global;
use std::rc::Rc;
use topo::Shape;
use tree_cert::Head;

// The same part state once more.
fn copy_part(alloc: Global, part: &PartState) -> Result<PartState, NoMemory>
    ensures { IfOk result (λ copy. copy ≡ part.now) }
{
    Ok(PartState {
        picks: List::of(alloc, part.picks.as_slice())?,
        states: List::of(alloc, part.states.as_slice())?,
    })
}

// The part state in which a decision of a group is picked too.
fn with_pick(
    alloc: Global,
    part: &PartState,
    group: u32,
    decision: u32,
) -> Result<PartState, NoMemory>
    requires { group < length part.now.picks }
    ensures { IfOk result (λ more. more ≡ with_pick part.now group decision) }
{
    let mut more = copy_part(alloc, part)?;
    more.picks.put(group as usize, Some(decision));
    Ok(more)
}

// The part state in which an arc is in this state too.
fn with_state(
    alloc: Global,
    part: &PartState,
    arc: u32,
    state: ArcState,
) -> Result<PartState, NoMemory>
    requires { arc < length part.now.states }
    ensures { IfOk result (λ more. more ≡ with_state part.now arc state) }
{
    let mut more = copy_part(alloc, part)?;
    more.states.put(arc as usize, Some(state));
    Ok(more)
}

// The part state of a child.
fn part_by(
    alloc: Global,
    p: &Problem,
    part: &Rc<PartState>,
    head: Head,
) -> Result<Rc<PartState>, NoMemory>
    requires { CanPick p.now part.now.value (Some head) }
    ensures { IfOk result (λ own. own.value ≡ part_by part.now.value (Some head)) }
{
    let _groups = p.groups();
    match head {
        Head::Take { group, decision } => shared(alloc, with_pick(alloc, part, group, decision)?),
        Head::State { arc, state } => shared(alloc, with_state(alloc, part, arc, state)?),
        Head::Half { .. } => another_owner(part),
    }
}

// The shape of a child with this part state. A half has that of its box.
fn shape_by(
    alloc: Global,
    p: &Problem,
    shape: &Rc<Shape>,
    part: &PartState,
    head: Head,
) -> Result<Rc<Shape>, NoMemory>
    requires part { PartFits p.now part.now }
    requires shape { KeepsShape p.now shape.now.value part.now head }
    ensures { IfOk result (λ own. IsShapeOf p.now part.now own.value) }
{
    match head {
        Head::Half { .. } => another_owner(shape),
        Head::Take { .. } | Head::State { .. } => shared(alloc, Shape::of(alloc, p, part)?),
    }
}

// The ends of the variables of a child.
fn bounds_by(
    alloc: Global,
    bounds: &Rc<VarBox<PoolGrid>>,
    head: Head,
) -> Result<Rc<VarBox<PoolGrid>>, NoMemory>
    requires { CanHalve bounds.now.value (Some head) }
    ensures { IfOk result (λ own. own.value ≡ bounds_by bounds.now.value (Some head)) }
{
    let Head::Half { var, low, value } = head else {
        return another_owner(bounds);
    };
    let mut own = bounds.copy()?;
    own.tighten(var, low, value);
    shared(alloc, own)
}

/// The child of a stable box by this head, with this turn. Halves share the part state and the shape of the box, and the
/// others the ends of its variables.
pub fn child_of(
    alloc: Global,
    p: &Problem,
    parent: &BoxView,
    head: Head,
    turn: u32,
) -> Result<BoxView, NoMemory>
    requires parent { IsStableView p.now parent.now }
    requires begins { CanBegin p.now parent.now head }
    ensures { IfOk result (IsReady p.now) }
{
    let part = part_by(alloc, p, &parent.part, head)?;
    Ok(BoxView {
        shape: shape_by(alloc, p, &parent.shape, &part, head)?,
        part,
        bounds: bounds_by(alloc, &parent.bounds, head)?,
        turn,
        head: Some(head),
    })
}
