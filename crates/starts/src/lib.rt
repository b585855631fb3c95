// Many starting minutes for one train (document 02, K5): for each of a list of earliest minutes, the total of the best timetable of the file so altered.
#![tactic(auto)]

pub mod asking;
pub mod filling;
pub mod knowing;
