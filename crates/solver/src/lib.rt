// The search for the best timetable, and solving a line file by it.
#![tactic(auto)]

pub mod ahead;
pub mod drawing;
pub mod finding;
pub mod forcing;
pub mod neighbourhood;
pub mod pricing;
pub mod scoring;
pub mod search;
pub mod selecting;
pub mod solving;
