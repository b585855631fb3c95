// What is known of a line while the entries are found: a timetable of least delay, or that there is none. From one minute of the list to the next it is
// carried on where that is sure, and found by solving elsewhere.
ghost use Rattle.std.specs.Prelude.{◌≡◌, true, ◌<◌};
ghost use Rattle.line.specs.Within.{Within};
ghost use Rattle.rules.specs.Statement.Paths.{Routed};
ghost use Rattle.starts.specs.Knowing.{Knows, Follows, Carries, entry_of};

use line::{Line, Time, Train, legs_between};
use plans::found::Best;
use rules::delay::weighted_delay;
use rules::rules::{breach_of, segment_between};
use solver::finding::best_timetable;

// "4,294,967,295 for "no timetable""
pub const NO_TIMETABLE: u32 = 4294967295;

// The entry of the line.
pub fn entry_of(known: Option<Best>) -> u32
    ensures { result ≡ entry_of known }
{
    match known {
        Some(best) => best.delay,
        None => NO_TIMETABLE,
    }
}

// The sum of two minutes, or a minute past the last.
fn sum_or_end(a: u16, b: u16) -> u16 {
    Time::value(u32::from(a) + u32::from(b)).unwrap_or(Time::END)
}

// The minutes with those of a train, which is train i, moved on as far as its earliest minute asks. They are judged afterwards, so nothing is said of them.
fn moved_on(train: Train, i: usize, minutes: [u16; 352]) -> [u16; 352]
    requires { Routed train × (i < 12) }
{
    let mut at = minutes;
    let mut ready = train.earliest;
    for k in 0..legs_between(train.origin, train.destination) {
        let entry = 16 * segment_between(train.origin, train.destination, k) + i;
        let departure = at[entry].max(ready);
        let arrival = sum_or_end(departure, train.runs[k]);
        at[entry] = departure;
        at[176 + entry] = arrival;
        ready = sum_or_end(arrival, train.stops[k]);
    }
    at
}

// Whether minutes are lawful on the next line and have this total on the one before it.
fn carries(before: Line, next: Line, total: u32, m: &[u16; 352]) -> bool
    requires { Within before × Within next }
    ensures { result ≡ true → Carries before next total m.now }
{
    if breach_of(next, m).is_err() {
        return false;
    }
    weighted_delay(before, m) == total
}

// The same of the line in which train i starts later: nothing where there was no timetable before; the minutes known, the train moved on, where they have the
// least delay still; else by solving.
pub fn known_after(before: Line, next: Line, i: usize, known: Option<Best>) -> Option<Best>
    requires { Follows before next i × Knows before known }
    ensures { Knows next result }
{
    let best = known?;
    let minutes = moved_on(next.traffic.trains[i], i, best.minutes);
    if carries(before, next, best.delay, &minutes) {
        return Some(Best {
            minutes,
            delay: weighted_delay(next, &minutes),
        });
    }
    best_timetable(next)
}
