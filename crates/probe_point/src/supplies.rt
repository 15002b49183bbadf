// The middle supplies of nodes, and lists of numbers.
ghost use Rattle.std.specs.Prelude.{◌≡◌, ◌<◌, ◌^◌, ℕ, pos, length, replicate, IfOk, IsTrue};
ghost use Rattle.integer_laws.specs.Sizes.{IsWithin};
ghost use Rattle.base_types.specs.Numbers.{is_flow};
ghost use Rattle.gas_model.specs.Near.{number_at};
ghost use Rattle.probe_point.specs.Probes.{AreSmall};
ghost use Rattle.probe_point.specs.Points.{middle_supply, middle_supplies};

use box_ends::middle;
use gas_model::{Ends, List, NoMemory, NodeRow, Problem};
use std::alloc::Global;

// Half of both bounds of the supply of a node.
fn middle_supply(node: &NodeRow) -> i128
    requires low { IsTrue (is_flow node.now.b_min) }
    requires high { IsTrue (is_flow node.now.b_max) }
    ensures value { result ≡ middle_supply node.now }
    ensures size { IsWithin 1000000000000 result }
{
    middle(Ends {
        lo: node.b_min as i128,
        hi: node.b_max as i128,
    })
}

/// The middle supplies of all nodes.
pub fn middle_supplies(alloc: Global, p: &Problem) -> Result<Vec<i128>, NoMemory>
    ensures value { IfOk result (λ all. all.items ≡ middle_supplies p.now.nodes) }
    ensures size { IfOk result (λ all. AreSmall 1 all.items) }
{
    let mut all = Vec::with_capacity(alloc, p.nodes().len())?;
    for node in p.nodes() {
        all.push(middle_supply(node))?;
    }
    Ok(all)
}

/// So many zeros.
pub fn zeros(alloc: Global, count: usize) -> Result<Vec<i128>, NoMemory>
    ensures { IfOk result (λ all. all.items ≡ replicate count (pos 0)) }
{
    Ok(vec![in alloc; 0; count]?)
}

/// The same numbers, as a setting has them.
pub fn whole_numbers(alloc: Global, numbers: &[i128]) -> Result<List<i64>, NoMemory>
    requires { (i : ℕ) → i < length numbers.now → IsWithin (10 ^ 16) (number_at numbers.now i) }
    ensures { IfOk result (λ list. list ≡ numbers.now) }
{
    let mut list = List::new(alloc);
    for number in numbers {
        list.push(*number as i64)?;
    }
    Ok(list)
}
