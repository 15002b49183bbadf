//! Examples of lines, shapes, branches, settling, pools and searches, worked by hand.
#![tactic(auto)]

#[cfg(test)]
mod box_pools;
#[cfg(test)]
mod branching;
#[cfg(test)]
mod next_lines;
#[cfg(test)]
mod searches;
#[cfg(test)]
mod settling;
#[cfg(test)]
mod shapes;
#[cfg(test)]
mod single_lines;
#[cfg(test)]
mod tree_pools;
