// Forced choices: where one way out of a conflict alone is alive, whatever is better than the best so far goes it. So a plan may be followed through all
// choices that are forced, one after the other, to see what it comes to.
ghost use Rattle.solver.specs.Selection.Selecting.{CanSelect};
ghost use Rattle.solver.specs.Search.Searching.{CanTry, CanTryAll};
ghost use Rattle.solver.specs.Lookahead.Forcing.{CanSettle, Settles, Forces, PricesForced, PricesAllForced};

use crate::pricing::{cheapest, way_prices};
use crate::scoring::AT_ONCE;
use crate::selecting::{Hint, select_conflict};
use plans::choosing::raised;
use plans::day::Day;
use plans::ranking::improves;
use plans::tally::{Tally, cut_of};
use plans::ways::{Way, way_count, way_of, with_bit};
use rules::conflicts::Conflict;

// How many forced choices are followed at most.
const FORCED_MOST: usize = 200;

// What a scan finds of a plan: that no choice is forced; that no way out of a conflict is alive, so that nothing better is in the plan; or the way that is
// forced, and a hint for the next scan.
#[derive(Clone, Copy)]
pub enum Forced {
    Over,
    Dead,
    Next(Way, Hint),
}

// Marks the way's choice, and raises the minutes to the least with it. What they cost, or None where none are in time for the cut.
fn settle(
    m: &mut [u16; 352],
    marks: &mut [u16; 368],
    day: &Day,
    way: Way,
    cost: u32,
    cut: u32,
) -> Option<u32>
    requires { CanSettle m.old marks.old day.now way cost }
    ensures { Settles m.old marks.old day.now way cost cut m.new marks.new result }
{
    marks[way.row] = with_bit(marks[way.row], way.second);
    raised(m, marks, &day.tables, &day.ds, way, cost, cut)
}

// The forced choice that a scan finds first. The marks are as before.
fn forced_way(
    m: &[u16; 352],
    former: &[u16; 352],
    marks: &mut [u16; 368],
    day: &Day,
    cost: u32,
    cut: u32,
    hint: Hint,
) -> Forced
    requires { CanSelect m.now marks.old day.now cost }
    ensures { Forces m.now marks.old day.now cost cut marks.new result }
{
    let selected = select_conflict(m, former, marks, day, cost, cut, hint);
    if selected.score != AT_ONCE {
        return Forced::Over;
    }
    let Some(conflict) = selected.conflict else {
        return Forced::Over;
    };
    let n = way_count(Some(conflict));
    let mut prices = way_prices(m, marks, day, cost, cut, Some(conflict));
    let Some(w) = cheapest(&prices, n, cost, 0) else {
        return Forced::Dead;
    };
    prices[w] = None;
    if cheapest(&prices, n, cost, 0).is_some() {
        return Forced::Over;
    }
    match way_of(Some(conflict), &day.ds, w).way {
        Some(way) => Forced::Next(way, selected.hint),
        None => Forced::Dead,
    }
}

// What the plan with the way's choice costs when all choices that are then forced are made, or None where nothing better than the best so far is in it.
fn forced_price(
    m: &[u16; 352],
    marks: &[u16; 368],
    best: &[u16; 352],
    day: &Day,
    cost: u32,
    hint: Hint,
    tally: Tally,
    way: Way,
) -> Option<u32>
    requires { CanTry m.now marks.now best.now day.now cost tally way }
    ensures { PricesForced m.now marks.now best.now day.now cost tally way result }
{
    let cut = cut_of(tally);
    let mut own = *marks;
    let mut q = *m;
    let mut former = *m;
    let mut c = settle(&mut q, &mut own, day, way, cost, cut)?;
    let mut h = hint;
    for _ in 0..FORCED_MOST {
        if !improves(&q, best, &day.key, c, tally) {
            return None;
        }
        match forced_way(&q, &former, &mut own, day, c, cut, h) {
            Forced::Over => return Some(c),
            Forced::Dead => return None,
            Forced::Next(forced, next) => {
                h = next;
                former = q;
                c = settle(&mut q, &mut own, day, forced, c, cut)?;
            }
        }
    }
    Some(c)
}

// The prices of the ways out of the conflict with all choices that are then forced, by number; None also where a number has no way.
// The loop is that of way_prices: one over both would take a closure that promises of the marks that it puts them back, which is longer than the loop.
pub fn forced_prices(
    m: &[u16; 352],
    marks: &[u16; 368],
    best: &[u16; 352],
    day: &Day,
    cost: u32,
    hint: Hint,
    tally: Tally,
    conflict: Conflict,
) -> [Option<u32>; 144]
    requires { CanTryAll m.now marks.now best.now day.now cost tally conflict }
    ensures { PricesAllForced m.now marks.now best.now day.now cost tally (Some conflict) result }
{
    let mut prices = [None; 144];
    let n = way_count(Some(conflict));
    let mut w: usize = 0;
    // The number goes on by the step of its way, which a `for` cannot do.
    while w < n {
        let out = way_of(Some(conflict), &day.ds, w);
        if let Some(way) = out.way {
            prices[w] = forced_price(m, marks, best, day, cost, hint, tally, way);
        }
        w += out.step;
    }
    prices
}
