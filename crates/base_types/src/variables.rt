// The variables of a problem.

/// A variable: the flow of an arc or the squared pressure of a node, by its position.
#[derive(Clone, Copy, Debug, PartialEq, Eq)]
pub enum Var {
    Flow(u32),
    Square(u32),
}
