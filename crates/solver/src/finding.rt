// The best timetable of a line. A good one is looked for first, by searches that end at a limit of plans and by searches around the best so far: the better
// it is, the more ways are dead in the search that then goes on to its end. Where none is found soon, short searches that choose otherwise each time look for
// one.
ghost use Rattle.std.specs.Prelude.{◌≡◌, None};
ghost use Rattle.line.specs.Within.{Within, Arrays};
ghost use Rattle.solver.specs.Search.Finding.{CanFind, FindsBest, MayImprove, Searches};

use crate::drawing::drawn;
use crate::neighbourhood::keep_orders;
use crate::search::take_up;
use crate::selecting::{Hint, first_hint};
use line::Line;
use orders::first::{FirstPlan, first_minutes};
use plans::day::Day;
use plans::found::{Best, found_of};
use plans::tally::{Tally, cut_of};
use plans::ways::with_bit;

// The limits of plans and the numbers of neighbourhoods are tuned on busy days (docs/DECISIONS.md); what is found depends on none of them.
const FIRST_LIMIT: u32 = 1000;

const AGAIN_LIMIT: u32 = 4000;

const SECOND_LIMIT: u32 = 4000;

const THIRD_LIMIT: u32 = 200000;

const ANEW_LIMIT: u32 = 200;

const ANEW_MOST: usize = 200;

const NEAR_LIMIT: u32 = 100;

const FIRST_NEAR: usize = 40;

const SECOND_NEAR: usize = 80;

const LAST_NEAR: usize = 400;

// The same best so far, and no plan counted yet.
fn afresh(tally: Tally) -> Tally
    ensures { (result.delay ≡ tally.delay) × (result.steps ≡ 0) }
{
    Tally { steps: 0, ..tally }
}

// Searches the plan without choices up to a limit of plans.
fn search_within(
    first: &FirstPlan,
    best: &mut [u16; 352],
    day: &Day,
    hint: Hint,
    limit: Option<u32>,
    tally: Tally,
) -> Tally
    requires { CanFind first.now best.old day.now tally }
    ensures { Searches first.now best.old day.now limit tally best.new result }
{
    let m = &first.minutes;
    let mut marks = [0u16; 368];
    take_up(
        m,
        m,
        &mut marks,
        best,
        day,
        first.cost,
        hint,
        limit,
        afresh(tally),
    )
}

// Searches around the best so far: the plan in which all trains but the free ones keep its orders.
fn search_around(
    first: &FirstPlan,
    best: &mut [u16; 352],
    day: &Day,
    free: u16,
    tally: Tally,
) -> Tally
    requires { CanFind first.now best.old day.now tally }
    ensures { MayImprove first.now best.old day.now tally
        best.new result }
{
    let b = afresh(tally);
    let mut marks = [0u16; 368];
    let mut q = first.minutes;
    let Some(c) = keep_orders(&mut q, &mut marks, best, day, free, first.cost, cut_of(b)) else {
        return b;
    };
    let hint = first_hint(false, 0, first.cost);
    take_up(
        &q,
        &first.minutes,
        &mut marks,
        best,
        day,
        c,
        hint,
        Some(NEAR_LIMIT),
        b,
    )
}

// Up to six trains of twelve, as bits of a mask; other numbers give others.
fn free_trains(number: usize) -> u16 {
    let mut x = drawn(number);
    let mut mask: u16 = 0;
    for _ in 0..6 {
        x = drawn(x);
        mask = with_bit(mask, x / 16 % 12);
    }
    mask
}

// Searches around the best so far, if there is one, with other trains free each time: those of the numbers from `number` up to `end`.
fn search_near(
    first: &FirstPlan,
    best: &mut [u16; 352],
    day: &Day,
    number: usize,
    end: usize,
    tally: Tally,
) -> Tally
    requires { CanFind first.now best.old day.now tally }
    ensures { MayImprove first.now best.old day.now tally
        best.new result }
{
    let mut b = tally;
    if b.delay.is_none() {
        return b;
    }
    for k in number..end {
        b = search_around(first, best, day, free_trains(k), b);
    }
    b
}

// Until there is a timetable: short searches whose scores and prices are varied by drawn numbers, others each time.
fn search_anew(first: &FirstPlan, best: &mut [u16; 352], day: &Day, tally: Tally) -> Tally
    requires { CanFind first.now best.old day.now tally }
    ensures { MayImprove first.now best.old day.now tally
        best.new result }
{
    let mut b = tally;
    for k in 0..ANEW_MOST {
        if b.delay.is_some() {
            return b;
        }
        let hint = first_hint(false, drawn(k + 1) + 1, first.cost);
        b = search_within(first, best, day, hint, Some(ANEW_LIMIT), b);
    }
    b
}

// How many plans to take up once more in the same order: few where a timetable is found, as searches around it come next.
fn again_limit(tally: Tally) -> u32 {
    if tally.delay.is_some() {
        1
    } else {
        AGAIN_LIMIT
    }
}

// Searches the plan without choices to its end. Where a search comes to its end below its limit, that is it.
fn search_whole(first: &FirstPlan, best: &mut [u16; 352], day: &Day, tally: Tally) -> Tally
    requires { CanFind first.now best.old day.now tally }
    ensures { Searches first.now best.old day.now None tally
        best.new result }
{
    let short = first_hint(false, 0, first.cost);
    let once = search_within(first, best, day, short, Some(FIRST_LIMIT), tally);
    if once.steps < FIRST_LIMIT {
        return once;
    }
    let limit = again_limit(once);
    let again = search_within(first, best, day, short, Some(limit), once);
    if again.steps < limit {
        return again;
    }
    let some = search_anew(first, best, day, again);
    let near = search_near(first, best, day, 0, FIRST_NEAR, some);
    let second = search_within(first, best, day, short, Some(SECOND_LIMIT), near);
    if second.steps < SECOND_LIMIT {
        return second;
    }
    let nearer = search_near(first, best, day, FIRST_NEAR, SECOND_NEAR, second);
    let long = first_hint(true, 0, first.cost);
    let third = search_within(first, best, day, long, Some(THIRD_LIMIT), nearer);
    if third.steps < THIRD_LIMIT {
        return third;
    }
    let last = search_near(first, best, day, SECOND_NEAR, LAST_NEAR, third);
    search_within(first, best, day, long, None, last)
}

// The best timetable of a line within the limits, if there is one.
pub fn best_timetable(line: Line) -> Option<Best>
    requires { Within line × Arrays line }
    ensures { FindsBest line result }
{
    let first = first_minutes(line);
    if !first.in_time {
        return None;
    }
    let none = Tally {
        delay: None,
        steps: 0,
    };
    let day = Day::of(line);
    let mut best = [0u16; 352];
    let whole = search_whole(&first, &mut best, &day, none);
    found_of(whole, best).best
}
