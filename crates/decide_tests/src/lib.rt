//! Examples of the search that decides, worked by hand, and networks at the limits of the model.
#![tactic(auto)]

#[cfg(test)]
mod deciding;
#[cfg(test)]
mod examples;
#[cfg(test)]
mod limits;
#[cfg(test)]
mod proposing;
