//! Examples of trimmed trees, by public calls.
#![tactic(auto)]

#[cfg(test)]
mod trimming;
