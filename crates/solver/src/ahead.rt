// Looking ahead: which conflict is settled next, by what its ways cost with all choices that they force. That takes some hundred times as long as a scan
// alone and finds much better conflicts, so it is done where much is left to search: far below the best so far, and the longer a search lasts the nearer
// to it.
ghost use Rattle.std.specs.Prelude.{◌≡◌, ◌<◌, IfSome};
ghost use Rattle.solver.specs.Selection.Selecting.{CanSelect, KnownReal, FindsReal, ChoosesOne};
ghost use Rattle.solver.specs.Search.Searching.{CanTakeUp, CanTryAll};
ghost use Rattle.solver.specs.Lookahead.Ahead.{PricesBetter};

use crate::forcing::forced_prices;
use crate::pricing::way_prices;
use crate::scoring::{AT_ONCE, score_of};
use crate::selecting::{Hint, NOTHING, Selected, select_conflict, with_place};
use plans::day::Day;
use plans::tally::{Tally, cut_of};
use plans::ways::way_count;
use rules::conflicts::Conflict;

// At how many places a search looks ahead at most.
const PLACES_MOST: usize = 16;

// After so many plans a search looks ahead nearer to the best so far.
const LONG: u32 = 30000;

// After so many it looks ahead at every plan.
const VERY_LONG: u32 = 1000000;

// How far below the best so far a plan must be to look ahead from it, in thousandths of what that costs more than the plan without choices.
fn least_room(steps: u32) -> u32
    ensures { result < 1000 }
{
    if steps < LONG {
        500
    } else if steps < VERY_LONG {
        250
    } else {
        0
    }
}

// Whether to look ahead from a plan that costs this and whose highest scored conflict has this score.
fn worth_looking(hint: Hint, score: u32, cost: u32, tally: Tally) -> bool {
    let Some(delay) = tally.delay else {
        return false;
    };
    if !hint.long || score == 0 || score == AT_ONCE {
        return false;
    }
    if delay > 4000000 || delay < cost || cost < hint.first {
        return false;
    }
    (delay - cost) * 1000 >= least_room(tally.steps) * (delay - hint.first)
}

// The scores of the places, each that of its highest scored conflict; 0 where a place has none. The marks are as before.
fn place_scores(m: &[u16; 352], marks: &mut [u16; 368], day: &Day, cost: u32, cut: u32) -> [u32; 24]
    requires { CanSelect m.now marks.old day.now cost }
    ensures { marks.new ≡ marks.old }
{
    let mut scores = [0u32; 24];
    for place in 0..24 {
        scores[place] = with_place(m, marks, day, cost, cut, place, NOTHING).score;
    }
    scores
}

// The place of the highest score, or None where all are 0.
fn highest_place(scores: &[u32; 24]) -> Option<usize>
    ensures { IfSome result (λ place. place < 24) }
{
    let mut high: u32 = 0;
    let mut highest = None;
    for place in 0..24 {
        if scores[place] > high {
            high = scores[place];
            highest = Some(place);
        }
    }
    highest
}

// The higher scored by looking ahead of the old conflict and the one at a place; the old one where that has none. The marks are as before.
fn look_at(
    m: &[u16; 352],
    marks: &mut [u16; 368],
    best: &[u16; 352],
    day: &Day,
    cost: u32,
    tally: Tally,
    place: usize,
    old: Selected,
) -> Selected
    requires { CanTakeUp m.now marks.old best.now day.now cost tally × KnownReal m.now day.now old.conflict }
    ensures { FindsReal m.now marks.old day.now marks.new result.conflict }
{
    let found = with_place(m, marks, day, cost, cut_of(tally), place, NOTHING);
    let Some(conflict) = found.conflict else {
        return old;
    };
    let prices = forced_prices(m, marks, best, day, cost, old.hint, tally, conflict);
    let score = score_of(&prices[..way_count(Some(conflict))], cost);
    if score <= old.score {
        return old;
    }
    Selected {
        conflict: Some(conflict),
        score,
        ..old
    }
}

// The same conflict without its score, for a search that looks ahead.
fn unscored(plain: Selected) -> Selected
    ensures { result.conflict ≡ plain.conflict }
{
    Selected {
        score: 0,
        hint: Hint {
            ahead: true,
            ..plain.hint
        },
        ..plain
    }
}

// Looks ahead at the places of the highest scores; at once where one conflict has at most one way alive. `plain` is what a scan alone selects. It is
// not laid into a level of the search, each of which would then have room for its arrays.
#[inline(never)]
fn look_ahead(
    m: &[u16; 352],
    marks: &mut [u16; 368],
    best: &[u16; 352],
    day: &Day,
    cost: u32,
    tally: Tally,
    plain: Selected,
) -> Selected
    requires { CanTakeUp m.now marks.old best.now day.now cost tally × KnownReal m.now day.now plain.conflict }
    ensures { FindsReal m.now marks.old day.now marks.new result.conflict }
{
    let mut scores = place_scores(m, marks, day, cost, cut_of(tally));
    let mut b = unscored(plain);
    for _ in 0..PLACES_MOST {
        let Some(place) = highest_place(&scores) else {
            return b;
        };
        scores[place] = 0;
        b = look_at(m, marks, best, day, cost, tally, place, b);
        if b.score == AT_ONCE {
            return b;
        }
    }
    b
}

// A conflict of the minutes m, if there is one: that of the highest score by a scan, or by looking ahead where that is worth it. The marks are as before.
pub fn choose_conflict(
    m: &[u16; 352],
    former: &[u16; 352],
    marks: &mut [u16; 368],
    best: &[u16; 352],
    day: &Day,
    cost: u32,
    hint: Hint,
    tally: Tally,
) -> Selected
    requires { CanTakeUp m.now marks.old best.now day.now cost tally }
    ensures { ChoosesOne m.now marks.old day.now marks.new result.conflict }
{
    let plain = select_conflict(m, former, marks, day, cost, cut_of(tally), hint);
    if !worth_looking(plain.hint, plain.score, cost, tally) {
        return plain;
    }
    let b = look_ahead(m, marks, best, day, cost, tally, plain);
    if b.conflict.is_none() {
        return plain;
    }
    b
}

// The prices of the ways out of the chosen conflict, as they were when it was chosen. The marks are as before.
pub fn chosen_prices(
    m: &[u16; 352],
    marks: &mut [u16; 368],
    best: &[u16; 352],
    day: &Day,
    cost: u32,
    hint: Hint,
    tally: Tally,
    conflict: Conflict,
) -> [Option<u32>; 144]
    requires { CanTryAll m.now marks.old best.now day.now cost tally conflict }
    ensures { PricesBetter m.now marks.old best.now day.now cost tally (Some conflict) marks.new result }
{
    if hint.ahead {
        return forced_prices(m, marks, best, day, cost, hint, tally, conflict);
    }
    way_prices(m, marks, day, cost, cut_of(tally), Some(conflict))
}
