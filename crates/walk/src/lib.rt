// The walk over the plans that request K9 describes, with its length.
#![tactic(auto)]

pub mod finding;
pub mod scanning;
pub mod walk;
