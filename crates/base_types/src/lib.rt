//! The small types that all crates speak of: lists, bytes and names, ids, limits of
//! numbers, variables, and the states of arcs with their words.
#![tactic(auto)]

mod collections;
mod ids;
mod numbers;
mod sharing;
mod states;
mod variables;
mod words;

pub use collections::{Bytes, List, Name, NoMemory};
pub use ids::is_id;
pub use numbers::{
    MAX_BOXES, MAX_DIFFERENCE, MAX_DRAG_PART, MAX_FLOW, MAX_PRESSURE, MAX_RATIO_PART, MAX_SQUARE,
    MAX_TOLERANCE, is_difference, is_drag_part, is_flow, is_pressure, is_ratio_part, is_square,
};
pub use sharing::{another_owner, shared};
pub use states::{Allow, ArcState};
pub use variables::Var;
pub use words::{state_named, state_word};
