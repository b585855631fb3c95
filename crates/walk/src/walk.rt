// The walk over the plans: taking up a plan tries the ways out of its lowest conflict in order, and trying a way takes up the plan with that choice more.
// The minutes of a plan lie above those of the plan that it comes from, so what they can still rise falls.
ghost use Rattle.std.specs.Prelude.{Some};
ghost use Rattle.walk.specs.Taking.{CanTakeUp, TakesUp, CanTry, Tries, CanTryAll, TriesAll};

use crate::scanning::{clear_segments, lowest_conflict};
use plans::choosing::{copy_minutes, fails, raised};
use plans::day::Day;
use plans::ranking::improves;
use plans::tally::{Tally, counted, cut_of};
use plans::ways::{Way, way_count, way_of, with_bit};
use rules::conflicts::Conflict;

// Takes up the plan of these marks, whose least minutes are m and cost this. The caller has counted it. At the former minutes, those of the plan that it
// comes from, the segments below `clear` have no conflict.
#[cycle(take_up_try_way_try_ways)]
pub fn take_up(
    m: &[u16; 352],
    former: &[u16; 352],
    clear: usize,
    marks: &mut [u16; 368],
    best: &mut [u16; 352],
    day: &Day,
    cost: u32,
    tally: Tally,
) -> Tally
    requires { CanTakeUp m.now former.now clear marks.old best.old day.now.tables day.now.ds day.now.key day.now.layout cost tally }
    ensures { TakesUp m.now marks.old best.old day.now.tables day.now.ds day.now.key day.now.layout cost tally marks.new best.new result }
{
    if !improves(m, best, &day.key, cost, tally) {
        return tally;
    }
    let Some(conflict) = lowest_conflict(day.layout, &day.ds, m, former, clear) else {
        copy_minutes(m, best);
        return Tally {
            delay: Some(cost),
            ..tally
        };
    };
    try_ways(m, marks, best, day, cost, tally, conflict)
}

// Tries the ways out of the lowest conflict of the minutes m, in order.
#[cycle(take_up_try_way_try_ways)]
fn try_ways(
    m: &[u16; 352],
    marks: &mut [u16; 368],
    best: &mut [u16; 352],
    day: &Day,
    cost: u32,
    tally: Tally,
    conflict: Conflict,
) -> Tally
    requires { CanTryAll m.now marks.old best.old day.now.tables day.now.ds day.now.key day.now.layout cost tally (Some conflict) }
    ensures { TriesAll m.now marks.old best.old day.now.tables day.now.ds day.now.key day.now.layout cost tally (Some conflict) marks.new best.new result }
{
    let n = way_count(Some(conflict));
    let clear = clear_segments(day.layout, Some(conflict));
    let mut b = tally;
    let mut w: usize = 0;
    // The number goes on by the step of its way, which a `for` cannot do.
    while w < n {
        let out = way_of(Some(conflict), &day.ds, w);
        if let Some(way) = out.way {
            b = try_way(m, marks, best, day, cost, b, way, clear);
        }
        w += out.step;
    }
    b
}

// Tries one of them: the plan with its choice, counted, is taken up where it has minutes in time for no more than the best so far costs.
#[cycle(take_up_try_way_try_ways)]
fn try_way(
    m: &[u16; 352],
    marks: &mut [u16; 368],
    best: &mut [u16; 352],
    day: &Day,
    cost: u32,
    tally: Tally,
    way: Way,
    clear: usize,
) -> Tally
    requires { CanTry m.now marks.old best.old day.now.tables day.now.ds day.now.key day.now.layout cost tally way clear }
    ensures { Tries m.now marks.old best.old day.now.tables day.now.ds day.now.key day.now.layout cost tally way marks.new best.new result }
{
    let b = counted(tally);
    let row = way.row;
    let old = marks[row];
    marks[row] = with_bit(old, way.second);
    if fails(m, marks, &day.tables, &day.ds, way, cost, cut_of(b)) {
        marks[row] = old;
        return b;
    }
    let mut q = *m;
    let Some(c) = raised(&mut q, marks, &day.tables, &day.ds, way, cost, cut_of(b)) else {
        marks[row] = old;
        return b;
    };
    let r = take_up(&q, m, clear, marks, best, day, c, b);
    marks[row] = old;
    r
}
