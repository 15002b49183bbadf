// Sets of nodes that shut arcs cut off from the others.
ghost use Rattle.std.specs.Prelude.{◌≡◌, ◌<◌, length, slice_get, Some, IsTrue};
ghost use Rattle.std.specs.List.{list_all};
ghost use Rattle.gas_model.specs.Points.{arcs_at};
ghost use Rattle.tree_rules.specs.NodeRules as node_rule;
ghost use Rattle.tree_rules.specs.Rules as spec;
ghost use Rattle.tree_check.specs.Cuts.{ascends, all_inside, passes_at, is_cut_off, AreMarks};
ghost use Rattle.tree_check.specs.Held.{IsBoxAt};

use crate::open_box::OpenBox;
use crate::states::fixed_state;
use gas_model::{ArcRow, Ends, Problem, is_shut};

// Whether there is a node, and each is after the one before it.
fn ascend(nodes: &[u32]) -> bool
    ensures { result ≡ ascends nodes.now }
{
    let Some((first, rest)) = nodes.split_first() else {
        return false;
    };
    let mut last = *first;
    for node in rest {
        if *node <= last {
            return false;
        }
        last = *node;
    }
    true
}

// Whether each is one of so many nodes.
fn all_inside(count: usize, nodes: &[u32]) -> bool
    ensures { result ≡ all_inside count nodes.now }
{
    nodes.iter().all(|node| (*node as usize) < count)
}

// Which nodes of at most 2,000 are among these.
fn marked(nodes: &[u32]) -> [bool; 2_000]
    requires { IsTrue (all_inside 2000 nodes.now) }
    ensures { AreMarks result nodes.now }
{
    let mut marks = [false; 2_000];
    for node in nodes {
        marks[*node as usize] = true;
    }
    marks
}

// Whether exactly one end of an arc is marked.
fn crosses(nodes: &[u32], marks: &[bool; 2_000], row: &ArcRow) -> bool
    requires marks { AreMarks marks.now nodes.now }
    requires from { row.now.from < 2000 }
    requires to { row.now.to < 2000 }
    ensures { result ≡ node_rule.crosses nodes.now row.now }
{
    marks[row.from as usize] != marks[row.to as usize]
}

// Whether an arc doesn't join the marked nodes to others, or is shut.
fn is_cut_off(
    p: &Problem,
    b: &OpenBox,
    nodes: &[u32],
    marks: &[bool; 2_000],
    arc: u32,
    row: &ArcRow,
) -> bool
    requires marks { AreMarks marks.now nodes.now }
    requires fits { IsBoxAt p.now b.now }
    requires row { slice_get p.now.arcs arc ≡ Some row.now }
    ensures { result ≡ is_cut_off p.now b.now.part nodes.now arc row.now }
{
    if crosses(nodes, marks, row) {
        is_shut(fixed_state(p, b, arc))
    } else {
        true
    }
}

// Whether all arcs at a node are so.
fn are_cut_off_at(p: &Problem, b: &OpenBox, nodes: &[u32], marks: &[bool; 2_000], node: u32) -> bool
    requires marks { AreMarks marks.now nodes.now }
    requires fits { IsBoxAt p.now b.now }
    requires node { node < length p.now.nodes }
    ensures { result ≡ list_all (passes_at (is_cut_off p.now b.now.part nodes.now) p.now.arcs) (arcs_at p.now.arcs node) }
{
    let arcs = p.arcs();
    for arc in p.arcs_at(node) {
        if !is_cut_off(p, b, nodes, marks, *arc, &arcs[*arc as usize]) {
            return false;
        }
    }
    true
}

// Whether all arcs are so: those at the nodes, since no other joins them to others.
fn are_cut_off(p: &Problem, b: &OpenBox, nodes: &[u32]) -> bool
    requires inside { IsTrue (all_inside (length p.now.nodes) nodes.now) }
    requires fits { IsBoxAt p.now b.now }
    ensures { result ≡ node_rule.all_arcs (is_cut_off p.now b.now.part nodes.now) 0 p.now.arcs }
{
    let marks = marked(nodes);
    for node in nodes {
        if !are_cut_off_at(p, b, nodes, &marks, *node) {
            return false;
        }
    }
    true
}

// The supply of nodes together, at least and at most.
fn supplies(p: &Problem, nodes: &[u32]) -> Ends
    requires ascend { IsTrue (ascends nodes.now) }
    requires inside { IsTrue (all_inside (length p.now.nodes) nodes.now) }
    ensures lo { result.lo ≡ node_rule.sum_nodes (node_rule.least_supply p.now.nodes) nodes.now }
    ensures hi { result.hi ≡ node_rule.sum_nodes (node_rule.greatest_supply p.now.nodes) nodes.now }
{
    let rows = p.nodes();
    let mut lo: i128 = 0;
    let mut hi: i128 = 0;
    for node in nodes {
        let row = &rows[*node as usize];
        lo += row.b_min as i128;
        hi += row.b_max as i128;
    }
    Ends { lo, hi }
}

// Whether nodes together bring in too much, or too little, to balance without other arcs.
fn is_unbalanced(p: &Problem, nodes: &[u32]) -> bool
    requires ascend { IsTrue (ascends nodes.now) }
    requires inside { IsTrue (all_inside (length p.now.nodes) nodes.now) }
    ensures { result ≡ node_rule.is_unbalanced p.now.nodes nodes.now }
{
    let supply = supplies(p, nodes);
    0 < supply.lo || supply.hi < 0
}

/// Whether nodes in strictly ascending order are joined to others by shut arcs alone, and can't balance together.
pub fn cuts(p: &Problem, b: &OpenBox, nodes: &[u32]) -> bool
    requires { IsBoxAt p.now b.now }
    ensures { result ≡ spec.cuts p.now b.now.part nodes.now }
{
    if !ascend(nodes) || !all_inside(p.nodes().len(), nodes) {
        return false;
    }
    are_cut_off(p, b, nodes) && is_unbalanced(p, nodes)
}
