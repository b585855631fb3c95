// The least minutes under a set of choices.
#![tactic(auto)]

pub mod arcs;
pub mod bits;
pub mod first;
pub mod prospects;
pub mod raising;
pub mod tables;
pub mod times;
pub mod waived;
