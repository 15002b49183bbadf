// The children of a fork.
ghost use Rattle.std.specs.Prelude.{◌≡◌, ◌<◌, [], ◌∷◌, length, map, slice_get, IfOk, Some, None};
ghost use Rattle.gas_model.specs.declared.rows.Group.{Group as AGroup};
ghost use Rattle.gas_model.specs.Rows.{Network};
ghost use Rattle.std.specs.List.{range_with_len};
ghost use Rattle.tree_cert.specs.declared.line.Head.TheVariants.{Take, State};
ghost use Rattle.tree_rules.specs.Branches.{lower_half, upper_half};
ghost use Rattle.box_split.specs.declared.forks.Fork.TheVariants as forks;
ghost use Rattle.box_pool.specs.Forks.{IsForkOf, AreChildren, HasChildren};

use box_split::Fork;
use gas_model::{ArcState, List, NoMemory, PartState, Problem, Var};
use std::alloc::Global;
use tree_cert::Head;
use tree_pool::BranchBy;

/// The children of a box: by what it is split, the head of each, and their turn.
#[derive(Drop)]
pub struct Children {
    pub by: BranchBy,
    pub heads: List<Head>,
    pub next: u32,
}

// How many decisions a group has.
fn count_decisions(p: &Problem, group: u32) -> u32
    requires { group < length p.now.groups }
    ensures { (g : AGroup) → slice_get p.now.groups group ≡ Some g → result ≡ length g.decisions }
{
    p.groups()[group as usize].decisions.as_slice().len() as u32
}

// A child for each of so many decisions of a group.
fn decision_heads(alloc: Global, group: u32, count: u32) -> Result<List<Head>, NoMemory>
    ensures { IfOk result (λ heads. heads ≡ map (Take group) (range_with_len 0 count)) }
{
    let mut heads = List::new(alloc);
    for decision in 0..count {
        heads.push(Head::Take { group, decision })?;
    }
    Ok(heads)
}

// A child for each of these states of an arc.
fn state_heads(alloc: Global, arc: u32, states: &[ArcState]) -> Result<List<Head>, NoMemory>
    ensures { IfOk result (λ heads. heads ≡ map (State arc) states.now) }
{
    let mut heads = List::new(alloc);
    for state in states {
        heads.push(Head::State { arc, state: *state })?;
    }
    Ok(heads)
}

// The two halves of a variable.
fn half_heads(alloc: Global, var: Var, value: i128) -> Result<List<Head>, NoMemory>
    ensures { IfOk result (λ heads. heads ≡ lower_half var value ∷ upper_half var value ∷ []) }
{
    let mut heads = List::new(alloc);
    heads.push(Head::Half {
        var,
        low: false,
        value,
    })?;
    heads.push(Head::Half {
        var,
        low: true,
        value,
    })?;
    Ok(heads)
}

// The children of a box that is split by a group.
fn group_children(alloc: Global, p: &Problem, group: u32) -> Result<Children, NoMemory>
    requires { group < length p.now.groups }
    ensures { (part : PartState) → IfOk result (AreChildren p.now part (forks.Group group)) }
{
    Ok(Children {
        by: BranchBy::Group(group),
        heads: decision_heads(alloc, group, count_decisions(p, group))?,
        next: 0,
    })
}

// The children of a box that is split by the states of an arc.
fn arc_children(
    alloc: Global,
    p: &Problem,
    part: &PartState,
    arc: u32,
) -> Result<Children, NoMemory>
    requires { arc < length p.now.arcs }
    ensures { IfOk result (AreChildren p.now part.now (forks.Free arc)) }
{
    let states = p.allowed_states(part, arc)?;
    Ok(Children {
        by: BranchBy::Arc(arc),
        heads: state_heads(alloc, arc, &states)?,
        next: 0,
    })
}

// The children of a box that is halved.
fn half_children(
    alloc: Global,
    p: &Problem,
    part: &PartState,
    var: Var,
    at: i128,
    next: u32,
) -> Result<Children, NoMemory>
    ensures { IfOk result (AreChildren p.now part.now (forks.Halve var at next)) }
{
    let (_nodes, _picks) = (p.nodes(), part.picks.as_slice());
    Ok(Children {
        by: BranchBy::Halves(var),
        heads: half_heads(alloc, var, at)?,
        next,
    })
}

/// The children of a fork of a box with this part state. `None` exactly for `Least`.
pub fn children_of(
    alloc: Global,
    p: &Problem,
    part: &PartState,
    fork: Fork,
) -> Result<Option<Children>, NoMemory>
    requires { IsForkOf p.now fork }
    ensures children { IfOk result (HasChildren p.now part.now fork) }
    ensures least { fork ≡ forks.Least → IfOk result (λ children. children ≡ None) }
{
    match fork {
        Fork::Group(group) => Ok(Some(group_children(alloc, p, group)?)),
        Fork::Free(arc) => Ok(Some(arc_children(alloc, p, part, arc)?)),
        Fork::Halve { var, at, next } => Ok(Some(half_children(alloc, p, part, var, at, next)?)),
        Fork::Least => Ok(None),
    }
}
