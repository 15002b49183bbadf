//! Networks of conductances on plain numbers: sets of joined nodes, and potentials by eliminating one node after the other,
//! the one with the fewest neighbours first.
#![tactic(auto)]

mod draft;
mod mesh;
mod parts;

pub use mesh::Mesh;
pub use parts::Parts;
