//! What holds of each search that takes the boxes of a pool in breadth-first order, over any rules: what a turn keeps,
//! that it leaves less to do, where a search stops, and how deep the box lies at which it stops.
#![tactic(auto)]

mod laws;

pub use laws::{
    Search, first_left_stays, search_begins, searches_stop, stopped_boxes_are_deep,
    turns_keep_order, turns_shrink,
};
