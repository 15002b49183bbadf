// The role of each arc, and the root of each node.
ghost use Rattle.std.specs.Prelude.{◌≡◌, ◌<◌, ◌≤◌, ℕ, length, slice_index, IfOk, ◌==◌};
ghost use Rattle.topo.specs.Graphs.{graph_of};
ghost use Rattle.topo.specs.States.{is_kept};
ghost use Rattle.topo.specs.Roles.{AreRoles, EndsBelow, has_chord_role};
ghost use Rattle.topo.specs.Shapes.{AreRoots};
ghost use Rattle.topo.specs.Walks.{those};

use crate::forest::{Role, flatten, unite};
use gas_model::{ArcRow, ArcState, NoMemory, is_shut};
use std::alloc::Global;

/// The role of each arc, and the root of each node.
#[derive(Drop)]
pub struct Parts {
    pub roles: Vec<Role>,
    pub root_of: Vec<u32>,
}

// The numbers below `count`.
fn counted(alloc: Global, count: usize) -> Result<Vec<u32>, NoMemory>
    requires { count ≤ 2000 }
    ensures length { IfOk result (λ v. length v.items ≡ count) }
    ensures each { IfOk result (λ v. (n : ℕ) → n < count → slice_index v.items n ≡ n) }
{
    let mut numbers = Vec::with_capacity(alloc, count)?;
    for n in 0..count {
        numbers.push(n as u32)?;
    }
    Ok(numbers)
}

// The roles of the arcs. `roots` holds each node itself at first, and then the root of its component.
fn roles_of(
    alloc: Global,
    roots: &mut [u32],
    arcs: &[ArcRow],
    states: &[Option<ArcState>],
) -> Result<Vec<Role>, NoMemory>
    requires same { length states.now ≡ length arcs.now }
    requires ends { EndsBelow arcs.now (length roots.old) }
    requires each { (n : ℕ) → n < length roots.old → slice_index roots.old n ≡ n }
    ensures roles { IfOk result (λ roles. AreRoles (graph_of arcs.now) (is_kept states.now) roles.items) }
    ensures roots { IfOk result (λ roles. AreRoots (graph_of arcs.now) (is_kept states.now) (length roots.old) roots.new) }
{
    let mut roles = Vec::with_capacity(alloc, arcs.len())?;
    for (a, row) in arcs.iter().enumerate() {
        let role = if is_shut(states[a]) {
            Role::Away
        } else {
            unite(roots, row.from as usize, row.to as usize)
        };
        roles.push(role)?;
    }
    flatten(roots);
    Ok(roles)
}

/// The role of each arc and the root of each node, by the fixed states of the arcs.
pub fn parts_of(
    alloc: Global,
    nodes: usize,
    arcs: &[ArcRow],
    states: &[Option<ArcState>],
) -> Result<Parts, NoMemory>
    requires nodes { nodes ≤ 2000 }
    requires same { length states.now ≡ length arcs.now }
    requires ends { EndsBelow arcs.now nodes }
    ensures roles { IfOk result (λ parts. AreRoles (graph_of arcs.now) (is_kept states.now) parts.roles.items) }
    ensures roots { IfOk result (λ parts. AreRoots (graph_of arcs.now) (is_kept states.now) nodes parts.root_of.items) }
{
    let mut root_of = counted(alloc, nodes)?;
    let roles = roles_of(alloc, root_of.as_mut_slice(), arcs, states)?;
    Ok(Parts { roles, root_of })
}

/// The nodes that are their own roots, in order.
pub fn own_roots(alloc: Global, root_of: &[u32]) -> Result<Vec<u32>, NoMemory>
    requires { length root_of.now ≤ 2000 }
    ensures { IfOk result (λ v. v.items ≡ those (λ n. slice_index root_of.now n == n) (length root_of.now)) }
{
    let mut roots = Vec::new(alloc);
    for (n, root) in root_of.iter().enumerate() {
        if *root == n as u32 {
            roots.push(n as u32)?;
        }
    }
    Ok(roots)
}

/// The chords, in order.
pub fn chords_of(alloc: Global, roles: &[Role]) -> Result<Vec<u32>, NoMemory>
    requires { length roles.now ≤ 2000 }
    ensures { IfOk result (λ v. v.items ≡ those (has_chord_role roles.now) (length roles.now)) }
{
    let mut chords = Vec::new(alloc);
    for (a, role) in roles.iter().enumerate() {
        if *role == Role::Chord {
            chords.push(a as u32)?;
        }
    }
    Ok(chords)
}
