//! A gas network with a nomination: its nodes, arcs and groups of decisions, and what it means to carry it.
#![tactic(auto)]

mod copies;
mod faults;
mod grouping;
mod incidence;
mod law_forms;
mod limits;
mod near;
mod placing;
mod problem;
mod rows;
mod rulings;
mod states;

pub use base_types::{
    Allow, ArcState, Bytes, List, Name, NoMemory, Var, is_id, state_named, state_word,
};
pub use incidence::ArcsAt;
pub use law_forms::{LawForm, PipeLaw, Tilt, is_shut, level};
pub use limits::{is_arc_within, is_kind_within, is_node_within};
pub use near::near_without_tolerance_is_exact;
pub use problem::Problem;
pub use rows::{
    ArcKind, ArcRow, ArcText, Decision, DecisionText, Drag, Ends, Group, GroupText, Many,
    ModelFault, NodeRow, PartState, Rows, Ruling, SetText, Setting,
};
pub use states::{all_leave, allows, first_left, has_state, leaves, states_of};
