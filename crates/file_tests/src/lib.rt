//! Examples of reading files, by the public calls of the crates that do it.
#![tactic(auto)]

#[cfg(test)]
mod decision_files;
#[cfg(test)]
mod desks;
#[cfg(test)]
mod flat_texts;
#[cfg(test)]
mod fronts;
#[cfg(test)]
mod hostile_names;
#[cfg(test)]
mod joined_files;
#[cfg(test)]
mod lines;
#[cfg(test)]
mod made_problems;
#[cfg(test)]
mod network_files;
#[cfg(test)]
mod outlines;
#[cfg(test)]
mod resistance_tables;
#[cfg(test)]
mod scenario_files;
#[cfg(test)]
mod setting_texts;
