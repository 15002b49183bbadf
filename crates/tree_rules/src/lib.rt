//! The rules of refutation trees for every kind of arc, and the theorem that a tree in which no box is left open, and
//! which passes by them, leaves no point.
#![tactic(auto)]

mod arc_vars;
mod children;
mod examples;
mod ranges;
mod soundness;
mod tightest;
mod values;

pub use arc_vars::{ArcEnds, ArcVar};
pub use children::{arcs_have_their_states, groups_have_their_decisions, halves_meet};
pub use examples::{
    drop_of_nine_cannot_carry_four, eight_is_out_of_reach_of_five, flow_of_five_is_not_known,
    four_is_in_reach_of_five, loss_needs_a_direction, loss_of_two_cannot_give_five_to_four,
    ratio_of_three_halves_cannot_raise_four_to_seven, reduction_by_two_cannot_give_nine_to_eight,
    shut_valve_cuts_the_demand, the_same_in_sixteenths,
};
pub use ranges::{
    cuts_ask_for_all_this, rules_keep_their_sign, steps_move_inward, steps_name_their_place,
};
pub use soundness::{
    closings_refute, heads_are_told_apart, rules_keep_points, steps_keep_points, texts_refute,
    trees_refute_boxes,
};
pub use tightest::{
    each_at_most, greatest_at_least, greatest_at_most, least_at_least, least_at_most, no_at_least,
    rules_loosen, steps_loosen,
};
pub use values::{
    balance_closes_past_its_law, balance_gives_its_values, closings_hold_past_their_law,
    closings_hold_past_their_law_in_sixteenths, rules_give_nothing_else, rules_give_their_values,
    rules_give_their_values_in_sixteenths,
};
