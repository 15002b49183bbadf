// The breadth-first walk over tree arcs.
ghost use Rattle.std.specs.Prelude.{◌≡◌, ◌<◌, ◌++◌, ◌&&◌, ℕ, List, [], Bool, not, length, map, filter, slice_index_or, EachIndex, IfOk, OnOk};
ghost use Rattle.gas_model.specs.Points.{arcs_at};
ghost use Rattle.topo.specs.Graphs.{graph_of};
ghost use Rattle.topo.specs.Roles.{EndsBelow, Spans, is_role_tree, has_tree_role};
ghost use Rattle.topo.specs.Walks.{Step, far, is_by, IsWalkFrom, AreWalks};

use crate::forest::Role;
use gas_model::{ArcRow, ArcsAt, NoMemory};
use std::alloc::Global;

fn is_onward(role: Role, arc: u32, by: Option<u32>) -> bool
    ensures { result ≡ (is_role_tree role && not (is_by by arc)) }
{
    match by {
        Some(other) => role == Role::Tree && arc != other,
        None => role == Role::Tree,
    }
}

/// The end of an arc that isn't the node `near`.
pub fn far(arcs: &[ArcRow], arc: u32, near: u32) -> u32
    requires { arc < length arcs.now }
    ensures { result ≡ far (graph_of arcs.now) arc near }
{
    let row = &arcs[arc as usize];
    if row.from == near { row.to } else { row.from }
}

// Goes on from a node, which the arc `by` led to.
fn go_on(
    walk: &mut Vec<(u32, u32)>,
    at: &[u32],
    roles: &[Role],
    node: u32,
    by: Option<u32>,
) -> Result<(), NoMemory>
    requires at { EachIndex at.now (λ k. slice_index_or at.now k 0 < length roles.now) }
    ensures { OnOk result (walk.new.items ≡ walk.old.items ++ map (λ a. (a, node)) (filter (λ a. has_tree_role roles.now a && not (is_by by a)) at.now)) }
{
    for a in at {
        if is_onward(roles[*a as usize], *a, by) {
            walk.push((*a, node))?;
        }
    }
    Ok(())
}

/// The arcs that leave or enter the node.
pub fn at_node(at: &[ArcsAt], node: u32) -> &[u32]
    requires { node < length at.now }
    ensures { result.now ≡ slice_index_or (map (λ v. v.items) at.now) node [] }
{
    at[node as usize].as_slice()
}

// Adds the walk from a root.
fn walk_from(
    walk: &mut Vec<(u32, u32)>,
    arcs: &[ArcRow],
    at: &[ArcsAt],
    roles: &[Role],
    root: u32,
) -> Result<(), NoMemory>
    requires ends { EndsBelow arcs.now (length at.now) }
    requires at { (n : ℕ) → n < length at.now → slice_index_or (map (λ v. v.items) at.now) n [] ≡ arcs_at arcs.now n }
    requires roles { length roles.now ≡ length arcs.now }
    requires tree { (keep : ℕ → Bool) × Spans (graph_of arcs.now) keep (has_tree_role roles.now) }
    requires root { root < length at.now }
    ensures { OnOk result ((w : List Step) × (walk.new.items ≡ walk.old.items ++ w) × IsWalkFrom (graph_of arcs.now) (has_tree_role roles.now) root w) }
{
    let mut i = walk.len();
    go_on(walk, at_node(at, root), roles, root, None)?;
    'nodes: while i < walk.len() {
        let (arc, near) = walk[i];
        let node = far(arcs, arc, near);
        go_on(walk, at_node(at, node), roles, node, Some(arc))?;
        i += 1;
    }
    Ok(())
}

/// The walks from the roots, one after the other.
pub fn walk_of(
    alloc: Global,
    arcs: &[ArcRow],
    at: &[ArcsAt],
    roles: &[Role],
    roots: &[u32],
) -> Result<Vec<(u32, u32)>, NoMemory>
    requires ends { EndsBelow arcs.now (length at.now) }
    requires at { (n : ℕ) → n < length at.now → slice_index_or (map (λ v. v.items) at.now) n [] ≡ arcs_at arcs.now n }
    requires roles { length roles.now ≡ length arcs.now }
    requires tree { (keep : ℕ → Bool) × Spans (graph_of arcs.now) keep (has_tree_role roles.now) }
    requires roots { EachIndex roots.now (λ i. slice_index_or roots.now i 0 < length at.now) }
    ensures { IfOk result (λ walk. AreWalks (graph_of arcs.now) (has_tree_role roles.now) roots.now (length roots.now) walk.items) }
{
    let mut walk = Vec::with_capacity(alloc, arcs.len())?;
    for root in roots {
        walk_from(&mut walk, arcs, at, roles, *root)?;
    }
    Ok(walk)
}
