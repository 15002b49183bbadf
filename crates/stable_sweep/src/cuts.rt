// Components that can't balance.
ghost use Rattle.std.specs.Prelude.{◌≡◌, ◌==◌, ◌+ℤ◌, ◌<◌, ◌≤◌, ℕ, length, slice_index_or, IfOk, MatchOption, FitsSigned};
ghost use Rattle.std.specs.Int.{w64};
ghost use Rattle.gas_model.specs.declared.rows.PartState.{PartState};
ghost use Rattle.topo.specs.Walks.{those};
ghost use Rattle.topo.specs.Shapes.{IsShapeOf};
ghost use Rattle.stable_sweep.specs.Supplies.{cannot_balance, AreSupplies, NoneUnbalanced, IsUnbalanced};
ghost use Rattle.stable_sweep.specs.Components.{NoneCuts, Cuts};

use gas_model::{List, NoMemory, NodeRow, Problem};
use std::alloc::Global;
use topo::Shape;

/// The supply of nodes together, at least and at most, in l/h.
#[derive(Clone, Copy, Debug, PartialEq, Eq)]
pub struct Supply {
    pub least: i64,
    pub greatest: i64,
}

// The supply with one more node.
fn with_node(supply: Supply, node: &NodeRow) -> Supply
    requires least { FitsSigned w64 (supply.least +ℤ node.now.b_min) }
    requires greatest { FitsSigned w64 (supply.greatest +ℤ node.now.b_max) }
    ensures least { result.least ≡ supply.least +ℤ node.now.b_min }
    ensures greatest { result.greatest ≡ supply.greatest +ℤ node.now.b_max }
{
    Supply {
        least: supply.least + node.b_min,
        greatest: supply.greatest + node.b_max,
    }
}

// Whether nodes with this supply bring in something at least, or want something at least.
fn cannot_balance(supply: Supply) -> bool
    ensures { result ≡ cannot_balance supply }
{
    0 < supply.least || supply.greatest < 0
}

// The supply of each component, at its root.
fn supplies(alloc: Global, p: &Problem, shape: &Shape) -> Result<Vec<Supply>, NoMemory>
    requires count { length shape.now.root_of ≡ length p.now.nodes }
    requires roots { (n : ℕ) → n < length p.now.nodes → slice_index_or shape.now.root_of n 0 < length p.now.nodes }
    ensures { IfOk result (λ v. AreSupplies p.now.nodes shape.now.root_of (length p.now.nodes) v.items) }
{
    let nodes = p.nodes();
    let none = Supply {
        least: 0,
        greatest: 0,
    };
    let mut all = vec![in alloc; none; nodes.len()]?;
    for (n, node) in nodes.iter().enumerate() {
        let root = shape.root_of(n as u32);
        all[root as usize] = with_node(all[root as usize], node);
    }
    Ok(all)
}

// The first number whose supply is unbalanced.
fn first_unbalanced(supplies: &[Supply]) -> Option<u32>
    requires { length supplies.now ≤ 2000 }
    ensures { MatchOption result (NoneUnbalanced supplies.now) (IsUnbalanced supplies.now) }
{
    for (root, supply) in supplies.iter().enumerate() {
        if cannot_balance(*supply) {
            return Some(root as u32);
        }
    }
    None
}

// The nodes of the component with this root.
fn nodes_of(alloc: Global, shape: &Shape, count: u32, root: u32) -> Result<List<u32>, NoMemory>
    requires { length shape.now.root_of ≡ count }
    ensures { IfOk result (λ ns. ns ≡ those (λ n. slice_index_or shape.now.root_of n 0 == root) count) }
{
    let mut nodes = List::new(alloc);
    for n in 0..count {
        if shape.root_of(n) == root {
            nodes.push(n)?;
        }
    }
    Ok(nodes)
}

/// The nodes of the first component, in the order of roots, that can't balance. Each component is looked at once.
pub fn first_cut(alloc: Global, p: &Problem, shape: &Shape) -> Result<Option<List<u32>>, NoMemory>
    requires { (part : PartState) × IsShapeOf p.now part shape.now }
    ensures { IfOk result (λ r. (part : PartState) → IsShapeOf p.now part shape.now → MatchOption r (NoneCuts p.now part) (Cuts p.now part)) }
{
    let count = p.nodes().len() as u32;
    let all = supplies(alloc, p, shape)?;
    let Some(root) = first_unbalanced(all.as_slice()) else {
        return Ok(None);
    };
    Ok(Some(nodes_of(alloc, shape, count, root)?))
}
