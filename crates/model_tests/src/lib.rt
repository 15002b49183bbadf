//! Tests of small types, problems and part states, by public calls alone.
#![tactic(auto)]

#[cfg(test)]
mod tests;
