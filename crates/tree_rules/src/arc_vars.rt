// The variables of an arc.
use gas_model::Ends;

/// The ends of the variables of an arc: of its flow, and of the squares at its `from` and at its `to`, in units of 1/K.
#[derive(Clone, Copy, Debug, PartialEq, Eq)]
pub struct ArcEnds {
    pub q: Ends,
    pub u: Ends,
    pub v: Ends,
}

/// A variable of an arc: its flow, or the square at its `from` or at its `to`.
#[derive(Clone, Copy, Debug, PartialEq, Eq)]
pub enum ArcVar {
    OfFlow,
    OfFrom,
    OfTo,
}
