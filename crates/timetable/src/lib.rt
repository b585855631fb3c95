// The timetable's text, read and written, and the check of a text against a line file.
#![tactic(auto)]

pub mod checking;
pub mod reading;
pub mod writing;
