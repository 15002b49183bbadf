// What a decision file says.
use base_types::{Allow, List, Name};

/// What an arc is, of which a decision says something.
#[derive(Clone, Copy, Debug, PartialEq, Eq)]
pub enum ActiveWord {
    /// `valve`.
    Valve,
    /// `controlValve`.
    Control,
    /// `compressorStation`.
    Station,
}

/// What a decision says of an arc.
#[derive(Debug, Drop)]
pub struct CdfSet {
    pub word: ActiveWord,
    /// The id of the arc.
    pub arc: Name,
    pub allow: Allow,
}

/// A decision, with what it says in file order.
#[derive(Debug, Drop)]
pub struct CdfDecision {
    pub id: Name,
    pub sets: List<CdfSet>,
}

/// A group, with its decisions in file order.
#[derive(Debug, Drop)]
pub struct CdfGroup {
    pub id: Name,
    pub decisions: List<CdfDecision>,
}

/// The groups of a decision file, in file order.
#[derive(Debug, Drop)]
pub struct CdfRows {
    pub groups: List<CdfGroup>,
}
