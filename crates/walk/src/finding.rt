// The best timetable of a line: the walk from the plan without choices.
ghost use Rattle.line.specs.Within.{Within, Arrays};
ghost use Rattle.walk.specs.Finding.{FindsWalked};

use crate::walk::take_up;
use line::Line;
use orders::first::first_minutes;
use plans::day::Day;
use plans::found::{Found, found_of};
use plans::tally::Tally;

// Finds the best timetable of a line within the limits, and counts the plans of the walk.
pub fn best_of(line: Line) -> Found
    requires { Within line × Arrays line }
    ensures { FindsWalked line result }
{
    let first = first_minutes(line);
    if !first.in_time {
        return Found {
            best: None,
            steps: 1,
        };
    }
    let day = Day::of(line);
    let none = Tally {
        delay: None,
        steps: 1,
    };
    let mut marks = [0u16; 368];
    let mut best = [0u16; 352];
    let minutes = first.minutes;
    let tally = take_up(
        &minutes, &minutes, 0, &mut marks, &mut best, &day, first.cost, none,
    );
    found_of(tally, best)
}
