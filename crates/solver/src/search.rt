// The search for the best timetable: taking up a plan tries the ways out of one of its conflicts, the cheapest first, and trying a way takes up the plan
// with that choice more. Which conflict it is and in what order its ways come changes nothing of what is found. A search may be given a limit of plans.
// The minutes of a plan lie above those of the plan that it comes from, so what they can still rise falls.
ghost use Rattle.std.specs.Prelude.{◌≡◌, true};
ghost use Rattle.solver.specs.Search.Searching.{Whole, CanTakeUp, TakesUp, CanTry, Tries, CanTryAll, TriesAll};

use crate::ahead::{choose_conflict, chosen_prices};
use crate::pricing::cheapest;
use crate::selecting::Hint;
use plans::choosing::{copy_minutes, raised};
use plans::day::Day;
use plans::ranking::improves;
use plans::tally::{Tally, counted, cut_of};
use plans::ways::{Way, way_count, way_of, with_bit};
use rules::conflicts::Conflict;

// Whether a search has taken up as many plans as it may.
fn spent(tally: Tally, limit: Option<u32>) -> bool
    ensures { result ≡ true → Whole limit tally → ⊥ }
{
    let Some(most) = limit else {
        return false;
    };
    most <= tally.steps
}

// Takes up the plan of these marks, whose least minutes are m and cost this. The caller has counted it. The hint is for the
// scan for conflicts and speaks of the former minutes, those of the plan that it comes from. A search without a limit goes on to its end.
#[cycle(take_up_try_way_try_ways)]
pub fn take_up(
    m: &[u16; 352],
    former: &[u16; 352],
    marks: &mut [u16; 368],
    best: &mut [u16; 352],
    day: &Day,
    cost: u32,
    hint: Hint,
    limit: Option<u32>,
    tally: Tally,
) -> Tally
    requires { CanTakeUp m.now marks.old best.old day.now cost tally }
    ensures { TakesUp m.now marks.old best.old day.now cost limit tally marks.new best.new result }
{
    if spent(tally, limit) {
        return tally;
    }
    if !improves(m, best, &day.key, cost, tally) {
        return tally;
    }
    let selected = choose_conflict(m, former, marks, best, day, cost, hint, tally);
    let Some(conflict) = selected.conflict else {
        copy_minutes(m, best);
        return Tally {
            delay: Some(cost),
            ..tally
        };
    };
    try_ways(
        m,
        marks,
        best,
        day,
        cost,
        selected.hint,
        limit,
        tally,
        conflict,
    )
}

// Tries the ways out of a conflict of the minutes m, the cheapest first; those that are dead are left out.
#[cycle(take_up_try_way_try_ways)]
fn try_ways(
    m: &[u16; 352],
    marks: &mut [u16; 368],
    best: &mut [u16; 352],
    day: &Day,
    cost: u32,
    hint: Hint,
    limit: Option<u32>,
    tally: Tally,
    conflict: Conflict,
) -> Tally
    requires { CanTryAll m.now marks.old best.old day.now cost tally conflict }
    ensures { TriesAll m.now marks.old best.old day.now cost limit tally conflict marks.new best.new result }
{
    let mut prices = chosen_prices(m, marks, best, day, cost, hint, tally, conflict);
    let n = way_count(Some(conflict));
    let mut b = tally;
    while let Some(w) = cheapest(&prices, n, cost, hint.row) {
        if let Some(way) = way_of(Some(conflict), &day.ds, w).way {
            b = try_way(m, marks, best, day, cost, hint, limit, b, way);
        }
        prices[w] = None;
    }
    b
}

// Tries one of them: the plan with its choice, counted, is taken up where it has minutes in time for no more than the best so far costs.
#[cycle(take_up_try_way_try_ways)]
fn try_way(
    m: &[u16; 352],
    marks: &mut [u16; 368],
    best: &mut [u16; 352],
    day: &Day,
    cost: u32,
    hint: Hint,
    limit: Option<u32>,
    tally: Tally,
    way: Way,
) -> Tally
    requires { CanTry m.now marks.old best.old day.now cost tally way }
    ensures { Tries m.now marks.old best.old day.now cost limit tally way marks.new best.new result }
{
    let b = counted(tally);
    let row = way.row;
    let old = marks[row];
    marks[row] = with_bit(old, way.second);
    let mut q = *m;
    let Some(c) = raised(&mut q, marks, &day.tables, &day.ds, way, cost, cut_of(b)) else {
        marks[row] = old;
        return b;
    };
    let r = take_up(&q, m, marks, best, day, c, hint, limit, b);
    marks[row] = old;
    r
}
