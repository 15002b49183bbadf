// The parts of a refutation tree, as its lines say them.
use base_types::{ArcState, List, Var};

/// A rule by which a step moves an end, or by which a closing holds.
#[derive(Clone, Copy, Debug, PartialEq, Eq)]
pub enum Rule {
    Balance,
    Pipe,
    Equal,
    Zero,
    Way,
    Inner,
    Fall,
    Order,
    Rise,
    Ratio,
    Sign,
    Reach,
    Along,
    Drop,
}

/// A step: the lower (`low`) or the upper end of a variable becomes `value`, by the rule at the node or the arc `place`.
/// Values count units of 1/K.
#[derive(Clone, Copy, Debug, PartialEq, Eq)]
pub struct Step {
    pub var: Var,
    pub low: bool,
    pub value: i128,
    pub rule: Rule,
    pub place: u32,
}

/// Why a box has no point: a variable is empty, the supply of a set of nodes that shut arcs cut off can't balance, or
/// the law at a node or an arc holds nowhere in the box.
#[derive(Debug, Drop)]
pub enum Closing {
    Empty(Var),
    /// The nodes, strictly ascending and at least one.
    Cut(List<u32>),
    At { rule: Rule, place: u32 },
}

/// What a child of a branch has more than the box above it: a picked decision, a state of an arc, or a half of a
/// variable, whose lower (`low`) or upper end becomes `value`.
#[derive(Clone, Copy, Debug, PartialEq, Eq)]
pub enum Head {
    Take { group: u32, decision: u32 },
    State { arc: u32, state: ArcState },
    Half { var: Var, low: bool, value: i128 },
}

/// A line of a tree.
#[derive(Debug, Drop)]
pub enum Line {
    /// `gastree 1`: values count whole units, so that K is 1.
    First,
    /// `gastree 2`: values count sixteenths, so that K is 16.
    FirstSixteenths,
    Step(Step),
    Close(Closing),
    LeftOpen,
    Group(u32),
    Arc(u32),
    Halve(Var),
    Head(Head),
    End,
}
