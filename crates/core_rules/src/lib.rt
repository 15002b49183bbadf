//! What the lines of a refutation tree cite of its problem, and the theorem that each problem with the same numbers at what
//! they cite is infeasible.
#![tactic(auto)]

mod laws;

pub use laws::{
    closings_read_no_more, core_texts_refute, cores_refute, cores_refute_boxes, steps_read_no_more,
    trees_cite_what_they_read,
};
