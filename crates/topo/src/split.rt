// The variables that a box is split at first.
ghost use Rattle.std.specs.Prelude.{◌≡◌, ◌<◌, ◌≤◌, ◌++◌, ◌∷◌, [], ℕ, List, length, map, slice_index, IfOk, OnOk, EachIndex};
ghost use Rattle.base_types.specs.declared.variables.Var.TheVariants as var;
ghost use Rattle.topo.specs.Roles.{EndsBelow};
ghost use Rattle.topo.specs.States.{is_active, state_in};
ghost use Rattle.topo.specs.Split.{firsts, ends_of_active, split_of, HasFirsts};

use gas_model::{ArcRow, ArcState, NoMemory, Var};
use std::alloc::Global;

fn is_active(state: Option<ArcState>) -> bool
    ensures { result ≡ is_active state }
{
    state == Some(ArcState::Active)
}

// The nodes that active control valves and stations lead to, in the order of the arcs.
fn active_ends(
    alloc: Global,
    arcs: &[ArcRow],
    states: &[Option<ArcState>],
) -> Result<Vec<u32>, NoMemory>
    requires { length states.now ≡ length arcs.now }
    ensures { IfOk result (λ v. v.items ≡ ends_of_active arcs.now (state_in states.now)) }
{
    let mut ends = Vec::new(alloc);
    for (a, row) in arcs.iter().enumerate() {
        if is_active(states[a]) {
            ends.push(row.to)?;
        }
    }
    Ok(ends)
}

// Lists a node, unless it is there.
fn note(list: &mut Vec<u32>, has: &mut [bool], node: u32) -> Result<(), NoMemory>
    requires { node < length has.old }
    ensures { OnOk result ((nodes : List ℕ) → HasFirsts (length has.old) nodes list.old.items has.old → HasFirsts (length has.old) (nodes ++ node ∷ []) list.new.items has.new) }
{
    if !has[node as usize] {
        list.push(node)?;
        has[node as usize] = true;
    }
    Ok(())
}

// Lists nodes, each once, after others.
fn note_all(list: &mut Vec<u32>, has: &mut [bool], more: &[u32]) -> Result<(), NoMemory>
    requires { EachIndex more.now (λ i. slice_index more.now i < length has.old) }
    ensures { OnOk result ((nodes : List ℕ) → HasFirsts (length has.old) nodes list.old.items has.old → HasFirsts (length has.old) (nodes ++ more.now) list.new.items has.new) }
{
    for node in more {
        note(list, has, *node)?;
    }
    Ok(())
}

// Lists the nodes of both lists, each where it first stands.
fn note_both(
    list: &mut Vec<u32>,
    has: &mut [bool],
    roots: &[u32],
    ends: &[u32],
) -> Result<(), NoMemory>
    requires roots { EachIndex roots.now (λ i. slice_index roots.now i < length has.old) }
    requires ends { EachIndex ends.now (λ i. slice_index ends.now i < length has.old) }
    ensures { OnOk result (HasFirsts (length has.old) [] list.old.items has.old → list.new.items ≡ firsts (roots.now ++ ends.now)) }
{
    note_all(list, has, roots)?;
    note_all(list, has, ends)?;
    Ok(())
}

// The nodes of both lists, each where it first stands.
fn firsts(alloc: Global, count: usize, roots: &[u32], ends: &[u32]) -> Result<Vec<u32>, NoMemory>
    requires roots { EachIndex roots.now (λ i. slice_index roots.now i < count) }
    requires ends { EachIndex ends.now (λ i. slice_index ends.now i < count) }
    ensures { IfOk result (λ v. v.items ≡ firsts (roots.now ++ ends.now)) }
{
    let mut list = Vec::new(alloc);
    let mut has = vec![in alloc; false; count]?;
    note_both(&mut list, has.as_mut_slice(), roots, ends)?;
    Ok(list)
}

// The flows of arcs, and then the squares of nodes.
fn vars_of(alloc: Global, flows: &[u32], squares: &[u32]) -> Result<Vec<Var>, NoMemory>
    ensures { IfOk result (λ v. v.items ≡ map var.Flow flows.now ++ map var.Square squares.now) }
{
    let mut vars = Vec::new(alloc);
    for arc in flows {
        vars.push(Var::Flow(*arc))?;
    }
    for node in squares {
        vars.push(Var::Square(*node))?;
    }
    Ok(vars)
}

/// The flows of the chords, the squares of the roots, and the squares of the nodes that active control valves and
/// stations lead to: each variable once.
pub fn split_list(
    alloc: Global,
    nodes: usize,
    chords: &[u32],
    roots: &[u32],
    arcs: &[ArcRow],
    states: &[Option<ArcState>],
) -> Result<Vec<Var>, NoMemory>
    requires same { length states.now ≡ length arcs.now }
    requires ends { EndsBelow arcs.now nodes }
    requires roots { EachIndex roots.now (λ i. slice_index roots.now i < nodes) }
    ensures { IfOk result (λ v. v.items ≡ split_of chords.now roots.now (ends_of_active arcs.now (state_in states.now))) }
{
    let ends = active_ends(alloc, arcs, states)?;
    let squares = firsts(alloc, nodes, roots, ends.as_slice())?;
    vars_of(alloc, chords, squares.as_slice())
}
