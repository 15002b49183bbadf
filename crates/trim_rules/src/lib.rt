//! What the trimmed text of a refutation tree is, and the theorems that it passes, that its lines are some of the text's, and
//! that it doesn't pass without any one of its steps.
#![tactic(auto)]

mod laws;

pub use laws::{
    closings_tighten, rules_tighten, trimmed_texts_need_their_steps, trimmed_texts_pass,
};
