// What a pool keeps of a box, and the work that is given back for one.
ghost use Rattle.std.specs.Prelude.{◌≡◌, IfOk};
ghost use Rattle.tree_pool.specs.Nodes.{standing_of, children_count, is_waiting};

use base_types::{List, NoMemory, Var};
use std::alloc::Global;
use tree_cert::{Closing, Head, Line, Step};

/// What a branch is by: the decisions of a group, the states of an arc, or the halves of a variable.
#[derive(Clone, Copy)]
pub enum BranchBy {
    Group(u32),
    Arc(u32),
    Halves(Var),
}

/// How work on a box ends.
#[derive(Drop)]
pub enum WorkEnd {
    /// The box has no point. The nodes of a cut ascend strictly, and are at least one.
    Shut(Closing),
    /// The box is split: the head of each child, in order.
    Split { by: BranchBy, heads: List<Head> },
    /// The box stays open for good.
    Left,
}

/// Work on a box: its steps in order, and how it ends.
#[derive(Drop)]
pub struct Work {
    pub steps: List<Step>,
    pub end: WorkEnd,
}

/// How a box stands. A split one has the numbers of its children, from the first on, and their count.
#[derive(Drop)]
pub enum Standing {
    Waiting,
    Held,
    Quit,
    Shut(Closing),
    Split {
        by: BranchBy,
        first: u32,
        count: u32,
    },
}

/// A box of a pool, apart from its place.
#[derive(Drop)]
pub struct Node {
    pub head: Option<Head>,
    pub steps: List<Step>,
    pub standing: Standing,
}

/// A node stands otherwise.
pub fn set_standing(node: &mut Node, standing: Standing)
    ensures { node.new ≡ record node.old { standing = standing } }
{
    node.standing = standing;
}

/// Puts work into a node.
pub fn fill_node(node: &mut Node, steps: List<Step>, standing: Standing)
    ensures { node.new ≡ record node.old { steps = steps; standing = standing } }
{
    node.steps = steps;
    node.standing = standing;
}

pub fn waits(standing: &Standing) -> bool
    ensures { result ≡ is_waiting (standing_of standing.now) }
{
    matches!(standing, Standing::Waiting)
}

/// How many children a box has.
pub fn count_children(standing: &Standing) -> u32
    ensures { result ≡ children_count (standing_of standing.now) }
{
    match standing {
        Standing::Split { count, .. } => *count,
        _ => 0,
    }
}
