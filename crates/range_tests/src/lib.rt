//! Examples of how much a node may draw, by public calls.
#![tactic(auto)]

#[cfg(test)]
mod ranging;
