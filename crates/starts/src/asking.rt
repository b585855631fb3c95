// What may be asked: a rising list of minutes for a train of the line, with an entry for each.
ghost use Rattle.std.specs.Prelude.{◌≤◌};
ghost use Rattle.finite.specs.Decide.{Decides};
ghost use Rattle.starts.specs.Asking.{Rising, AllTimes, Asked};

use line::{Time, Train};

// The most minutes of a list.
pub const MOST_MINUTES: usize = 24;

// Each minute is before the next.
fn rises(minutes: &[u16]) -> bool
    ensures { Decides (Rising minutes.now) result }
{
    for k in 1..minutes.len() {
        if minutes[k] <= minutes[k - 1] {
            return false;
        }
    }
    true
}

// A minute of the two days.
fn is_time(minute: u16) -> bool
    ensures { Decides (minute ≤ 2879) result }
{
    Time::value(u32::from(minute)).is_some()
}

// Each minute is of the two days.
fn all_times(minutes: &[u16]) -> bool
    ensures { Decides (AllTimes minutes.now) result }
{
    for &minute in minutes {
        if !is_time(minute) {
            return false;
        }
    }
    true
}

// Train and list may be asked of a line with so many trains, and so many entries are enough.
pub fn may_ask(trains: u16, train: u32, minutes: &[u16], entries: usize) -> bool
    ensures { Decides (Asked trains train minutes.now entries) result }
{
    let count = minutes.len();
    if count == 0 || count > MOST_MINUTES || count > entries {
        return false;
    }
    if !rises(minutes) || !all_times(minutes) {
        return false;
    }
    Train::value(train, trains).is_some()
}
