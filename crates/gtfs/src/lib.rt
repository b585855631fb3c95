// The GTFS file stop_times.txt for journey planners (document 02, K4): a timetable exported, and imported again for its line file.
#![tactic(auto)]

pub mod exporting;
pub mod importing;
pub mod stops;
