// The states of arcs, and the words of decisions that allow them.

/// The state of an arc.
#[derive(Clone, Copy, Debug, PartialEq, Eq)]
pub enum ArcState {
    Opened,
    Shut,
    Active,
    Bypass,
}

/// The states that a decision allows an arc. `On` allows active and bypass.
#[derive(Clone, Copy, Debug, PartialEq, Eq)]
pub enum Allow {
    Opened,
    Shut,
    Active,
    Bypass,
    On,
}
