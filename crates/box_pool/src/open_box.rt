// Where the boxes of a pool come from that are still to be worked on.
ghost use Rattle.std.specs.Prelude.{◌≡◌, IfOk, IfSome, option_map};
ghost use Rattle.std.specs.Rc.{rc_value};
ghost use Rattle.gas_model.specs.Choices.{PartFits};
ghost use Rattle.topo.specs.Shapes.{IsShapeOf};
ghost use Rattle.box_pool.specs.Origins.{part_by, bounds_by, turn_by, origin_of, origins_of, child_origins, CanPick, CanHalve, IsOrigin, IsViewOf};

use crate::choice::{with_pick, with_state};
use crate::grid::PoolGrid;
use box_core::VarBox;
use gas_model::{NoMemory, PartState, Problem};
use std::alloc::Global;
use std::rc::Rc;
use topo::Shape;
use tree_cert::Head;

/// A box that was split, after its steps: what its children have in common. The shape is kept only where it is the
/// children's own: their part state is that of the box then.
#[derive(Drop)]
pub struct ParentBox {
    pub part: Rc<PartState>,
    pub shape: Option<Rc<Shape>>,
    pub bounds: Rc<VarBox<PoolGrid>>,
    pub next: u32,
}

/// A box that waits or is held: the box that it comes from, and its head. The root has none.
#[derive(Drop)]
pub struct OpenBox {
    pub base: Rc<ParentBox>,
    pub head: Option<Head>,
}

/// A box of a pool: its part state, the shape of the network in it, the ends of its variables, its turn, the place of the
/// split list where the search for a variable to halve begins, and its head, which the root hasn't. What it has in common
/// with other boxes is shared with them. To change the ends, put others in their place.
#[derive(Drop)]
pub struct BoxView {
    pub part: Rc<PartState>,
    pub shape: Rc<Shape>,
    pub bounds: Rc<VarBox<PoolGrid>>,
    pub turn: u32,
    pub head: Option<Head>,
}

/// Shares a value.
pub fn shared<T: Drop>(alloc: Global, value: T) -> Result<Rc<T>, NoMemory>
    ensures { IfOk result (λ one. one.value ≡ value) }
{
    match Rc::new(alloc, value) {
        Ok(one) => Ok(one),
        Err(_) => Err(NoMemory),
    }
}

// The same value, for one more owner.
fn same<T: Drop>(value: &Rc<T>) -> Result<Rc<T>, NoMemory>
    ensures { IfOk result (λ more. more.value ≡ value.now.value) }
{
    match value.clone() {
        Ok(more) => Ok(more),
        Err(_) => Err(NoMemory),
    }
}

// The part state of a child.
fn part_by(
    alloc: Global,
    p: &Problem,
    part: &Rc<PartState>,
    head: Option<Head>,
) -> Result<Rc<PartState>, NoMemory>
    requires { CanPick p.now part.now.value head }
    ensures { IfOk result (λ own. own.value ≡ part_by part.now.value head) }
{
    let _groups = p.groups();
    match head {
        Some(Head::Take { group, decision }) => {
            shared(alloc, with_pick(alloc, part, group, decision)?)
        }
        Some(Head::State { arc, state }) => shared(alloc, with_state(alloc, part, arc, state)?),
        Some(Head::Half { .. }) | None => same(part),
    }
}

// The shape of a child with this part state: the one that is kept, or else it is worked out.
fn shape_of(
    alloc: Global,
    p: &Problem,
    kept: &Option<Rc<Shape>>,
    part: &PartState,
) -> Result<Rc<Shape>, NoMemory>
    requires part { PartFits p.now part.now }
    requires kept { IfSome (option_map rc_value kept.now) (IsShapeOf p.now part.now) }
    ensures { IfOk result (λ shape. IsShapeOf p.now part.now shape.value) }
{
    match kept {
        Some(shape) => same(shape),
        None => shared(alloc, Shape::of(alloc, p, part)?),
    }
}

// The ends of the variables of a child.
fn bounds_by(
    alloc: Global,
    bounds: &Rc<VarBox<PoolGrid>>,
    head: Option<Head>,
) -> Result<Rc<VarBox<PoolGrid>>, NoMemory>
    requires { CanHalve bounds.now.value head }
    ensures { IfOk result (λ own. own.value ≡ bounds_by bounds.now.value head) }
{
    let Some(Head::Half { var, low, value }) = head else {
        return same(bounds);
    };
    let mut own = bounds.copy()?;
    own.tighten(var, low, value);
    shared(alloc, own)
}

// The turn of a child.
fn turn_by(next: u32, head: Option<Head>) -> u32
    ensures { result ≡ turn_by next head }
{
    match head {
        Some(Head::Take { .. } | Head::State { .. }) => 0,
        Some(Head::Half { .. }) | None => next,
    }
}

impl OpenBox {
    /// The box. Of the ends of the box that it comes from it makes a copy only where it is a half.
    pub fn view(&self, alloc: Global, p: &Problem) -> Result<BoxView, NoMemory>
        requires { IsOrigin p.now (origin_of self.now) }
        ensures { IfOk result (IsViewOf p.now (origin_of self.now)) }
    {
        let base = &self.base;
        let part = part_by(alloc, p, &base.part, self.head)?;
        Ok(BoxView {
            shape: shape_of(alloc, p, &base.shape, &part)?,
            part,
            bounds: bounds_by(alloc, &base.bounds, self.head)?,
            turn: turn_by(base.next, self.head),
            head: self.head,
        })
    }
}

/// Where the children of a box come from.
pub fn spots(
    alloc: Global,
    base: ParentBox,
    heads: &[Head],
) -> Result<Vec<Option<OpenBox>>, NoMemory>
    ensures { IfOk result (λ all. origins_of all.items ≡ child_origins base heads.now) }
{
    let base = shared(alloc, base)?;
    let mut all = Vec::new(alloc);
    for head in heads {
        let spot = OpenBox {
            base: same(&base)?,
            head: Some(*head),
        };
        all.push(Some(spot))?;
    }
    Ok(all)
}
