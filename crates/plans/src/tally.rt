// The best so far, as the walk carries it: its minutes are lent beside it.
ghost use Rattle.std.specs.Prelude.{◌≡◌, ◌+◌};
ghost use Rattle.plans.specs.Clauses.Tallies.{cut_of, cut_off};

// The weighted delay of the best so far, where one was found, and how many plans were taken up, cut off at 4,294,967,295.
#[derive(Clone, Copy)]
pub struct Tally {
    pub delay: Option<u32>,
    pub steps: u32,
}

// A cut that cuts nothing off: no timetable costs as much. It is a bound like any other cut, so raising has one comparison for all.
pub const NO_CUT: u32 = 4294967294;

// The delay that a timetable may have at most to be looked at.
pub fn cut_of(tally: Tally) -> u32
    ensures { result ≡ cut_of tally }
{
    tally.delay.unwrap_or(NO_CUT)
}

// One plan more.
pub fn counted(tally: Tally) -> Tally
    ensures { (result.delay ≡ tally.delay) × (result.steps ≡ cut_off (tally.steps + 1)) }
{
    Tally {
        steps: tally.steps.saturating_add(1),
        ..tally
    }
}
