// The rules of a timetable: which rule some minutes break first, the lowest conflict, the weighted delay and the order lists.
#![tactic(auto)]

pub mod bookings;
pub mod conflicts;
pub mod delay;
pub mod directions;
pub mod orders;
pub mod passages;
pub mod rules;
pub mod stations;

// The minutes of a timetable. Train i (its number less 1) departs on segment p (its number less 1) at entry 16 p + i and arrives at entry
// 176 + 16 p + i. Entries that no train's leg has are never looked at.
#[derive(Clone, Copy)]
pub struct Minutes {
    pub at: [u16; 352],
}
