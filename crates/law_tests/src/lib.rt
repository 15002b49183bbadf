//! Examples of the laws of arcs and nodes, of boxes and their steps, of probes and of refutation trees, with numbers worked
//! by hand.
#![tactic(auto)]

#[cfg(test)]
mod boxes;
#[cfg(test)]
mod decimals;
#[cfg(test)]
mod eighths;
#[cfg(test)]
mod flows;
#[cfg(test)]
mod intervals;
#[cfg(test)]
mod laws_of_arcs;
#[cfg(test)]
mod probes;
#[cfg(test)]
mod problems;
#[cfg(test)]
mod queues;
#[cfg(test)]
mod squares;
#[cfg(test)]
mod trees;
