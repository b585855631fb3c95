// What a search of a line ends with: the best timetable, or that there is none.
ghost use Rattle.std.specs.Prelude.{◌≡◌};
ghost use Rattle.plans.specs.Clauses.FoundBest.{found_of};

use crate::tally::Tally;

// The minutes and the weighted delay of the best timetable.
#[derive(Clone, Copy)]
pub struct Best {
    pub minutes: [u16; 352],
    pub delay: u32,
}

// The best timetable, where there is one, and how many plans were taken up, cut off at 4,294,967,295.
#[derive(Clone, Copy)]
pub struct Found {
    pub best: Option<Best>,
    pub steps: u32,
}

// What was found by a search that ended with this tally and these minutes beside it.
pub fn found_of(tally: Tally, minutes: [u16; 352]) -> Found
    ensures { result ≡ found_of tally minutes }
{
    Found {
        best: tally.delay.map(|delay| Best { minutes, delay }),
        steps: tally.steps,
    }
}
