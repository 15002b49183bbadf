//! Examples of the program's commands, over files in memory.
#![tactic(auto)]

#[cfg(test)]
mod checking;
#[cfg(test)]
mod desks;
#[cfg(test)]
mod failing;
#[cfg(test)]
mod faults;
#[cfg(test)]
mod joining;
#[cfg(test)]
mod making;
#[cfg(test)]
mod replaying;
#[cfg(test)]
mod solving;
#[cfg(test)]
mod tightest;
#[cfg(test)]
mod wording;
