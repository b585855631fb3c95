// What every search over plans uses: the ways out of a conflict, raising for a choice and what it costs, the comparison with the best so far, and what is
// found in the end.
#![tactic(auto)]

pub mod choosing;
pub mod costing;
pub mod day;
pub mod found;
pub mod ranking;
pub mod tally;
pub mod ways;
