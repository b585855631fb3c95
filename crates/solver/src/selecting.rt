// Which conflict is settled next: that of the highest score. The scan goes once around the places of the line, first the segments and then the stations,
// and may miss a conflict; where it finds none, the lowest conflict decides whether there is one.
ghost use Rattle.std.specs.Prelude.{◌≡◌, true, ◌+◌, ◌≤◌, ◌<◌};
ghost use Rattle.rules.specs.Conflict.Conflicts.{clash};
ghost use Rattle.solver.specs.Selection.Selecting.{KnownReal, CanScore, HigherScored, CanScoreOn, ScoresOn, CanSelect, FindsReal, ChoosesOne};

use crate::drawing::{drawn, varied};
use crate::scoring::{AT_ONCE, way_score};
use line::Segment;
use orders::bits::next_bit;
use plans::day::Day;
use plans::ways::with_bit;
use rules::conflicts::{Conflict, SegmentConflict, lowest_conflict};
use rules::passages::{neither, passage_of};
use rules::stations::crowd_on;

// A bit for every place, and more.
const EVERYWHERE: u32 = 4294967295;

// The highest score of a conflict of which two ways out cost nothing.
const AT_NO_COST: u32 = 2;

// Hints of which nothing is promised. What a scan may leave out: it begins at place `start`, and at places without a bit in `look` there was no conflict at
// the former minutes. How a search goes: it may look ahead (`long`), it has done so for the conflict to settle (`ahead`), and its scores and prices are
// varied by a row of drawn numbers, unless that is 0; the plan without choices costs `first`.
#[derive(Clone, Copy)]
pub struct Hint {
    pub start: usize,
    pub look: u32,
    pub long: bool,
    pub ahead: bool,
    pub row: usize,
    pub first: u32,
}

// A conflict and its score, which is 0 where there is none.
#[derive(Clone, Copy)]
pub struct Scored {
    pub conflict: Option<Conflict>,
    pub score: u32,
}

pub const NOTHING: Scored = Scored {
    conflict: None,
    score: 0,
};

// The highest scored conflict of a scan, and a hint for the next one.
#[derive(Clone, Copy)]
pub struct Selected {
    pub conflict: Option<Conflict>,
    pub score: u32,
    pub hint: Hint,
}

// The hint of a search that begins.
pub fn first_hint(long: bool, row: usize, first: u32) -> Hint {
    Hint {
        start: 0,
        look: EVERYWHERE,
        long,
        ahead: false,
        row,
        first,
    }
}

// The hint with another start and other places to look at.
fn hint_from(hint: Hint, start: usize, look: u32) -> Hint {
    Hint {
        start,
        look,
        ahead: false,
        ..hint
    }
}

// The row of drawn numbers of the next plan; none stays none.
fn next_row(row: usize) -> usize {
    if row == 0 { 0 } else { drawn(row) + 1 }
}

// The lowest train of a conflict.
fn lowest_train(x: Conflict) -> usize {
    match x {
        Conflict::OnSegment(pair) => pair.lower,
        Conflict::AtStation(crowd) => next_bit(crowd.trains, 0),
    }
}

// Whether a conflict x with this score is settled before the old one: it has the higher score; or the plan costs what the best so far does, two ways out of
// either cost nothing, and x is of a lower train: where delay does not decide, the departures of the lowest train do.
fn settled_before(
    cost: u32,
    cut: u32,
    score: u32,
    x: Conflict,
    old_score: u32,
    old: Option<Conflict>,
) -> bool {
    if cost < cut || score > AT_NO_COST {
        return score > old_score;
    }
    old_score <= AT_NO_COST && lowest_train(x) < old.map_or(12, |c| lowest_train(c))
}

// The higher scored of conflict x and the old one. The marks are as before.
fn higher_scored(
    m: &[u16; 352],
    marks: &mut [u16; 368],
    day: &Day,
    cost: u32,
    cut: u32,
    x: Conflict,
    old: Scored,
) -> Scored
    requires { CanScore m.now marks.old day.now cost (Some x) }
    ensures { HigherScored marks.old (Some x) old marks.new result }
{
    let score = way_score(m, marks, day, cost, cut, Some(x));
    if !settled_before(cost, cut, score, x, old.score, old.conflict) {
        return old;
    }
    Scored {
        conflict: Some(x),
        score,
    }
}

// Whether trains i and j are in conflict on segment p, which is g. Only a true answer is promised.
fn in_conflict(g: Segment, day: &Day, m: &[u16; 352], p: usize, i: usize, j: usize) -> bool
    requires { (p < 11) × (i < 12) × (j < 12) }
    ensures { result ≡ true → clash g day.now.ds m.now p i j ≡ true }
{
    let x = passage_of(&day.ds, m, p, i);
    let y = passage_of(&day.ds, m, p, j);
    if j <= i || x.way == 0 || y.way == 0 {
        return false;
    }
    neither(g, x, y)
}

// The higher scored of the old conflict and that of trains i and j, of n, on segment p, which is g; the old one where they have none.
fn with_pair(
    m: &[u16; 352],
    marks: &mut [u16; 368],
    day: &Day,
    cost: u32,
    cut: u32,
    g: Segment,
    n: usize,
    p: usize,
    i: usize,
    j: usize,
    old: Scored,
) -> Scored
    requires { CanScoreOn m.now marks.old day.now cost g n p × (i < n) × (j < n) }
    ensures { ScoresOn m.now marks.old day.now g n p old marks.new result }
{
    if !in_conflict(g, day, m, p, i, j) {
        return old;
    }
    let x = SegmentConflict {
        segment: p,
        lower: i,
        higher: j,
    };
    higher_scored(m, marks, day, cost, cut, Conflict::OnSegment(x), old)
}

// The trains that are on segment p within train i's gap. Some may be missed: what the scan misses, the lowest conflict finds. A train arrives at minute 0
// only where it does not use the segment. Both minutes are read before either is compared, so that all trains are compared at once.
fn near(m: &[u16; 352], p: usize, i: usize, gap: u16) -> u16
    requires { (p < 11) × (i < 12) }
{
    let arrival = m[176 + (16 * p + i)];
    if arrival == 0 {
        return 0;
    }
    let after = arrival.saturating_add(gap);
    let before = m[16 * p + i].saturating_sub(gap);
    let mut mask: u16 = 0;
    for j in 0..12 {
        let departs = m[16 * p + j];
        let arrives = m[176 + (16 * p + j)];
        if departs < after && arrives > before {
            mask = with_bit(mask, j);
        }
    }
    mask
}

// The highest scored of the old conflict and those of train i with the trains above it on segment p; at once where one has the highest score.
fn with_train(
    m: &[u16; 352],
    marks: &mut [u16; 368],
    day: &Day,
    cost: u32,
    cut: u32,
    g: Segment,
    n: usize,
    p: usize,
    i: usize,
    old: Scored,
) -> Scored
    requires { CanScoreOn m.now marks.old day.now cost g n p × (i < n) }
    ensures { ScoresOn m.now marks.old day.now g n p old marks.new result }
{
    let mask = near(m, p, i, g.following.max(g.opposing));
    let mut b = old;
    // Over the near trains alone: a `for` over all twelve would test each.
    let mut j = next_bit(mask, i + 1);
    while j < n {
        b = with_pair(m, marks, day, cost, cut, g, n, p, i, j, b);
        if b.score == AT_ONCE {
            return b;
        }
        j = next_bit(mask, j + 1);
    }
    b
}

// The highest scored of the old conflict and those on segment p; at once where one has the highest score.
fn with_segment(
    m: &[u16; 352],
    marks: &mut [u16; 368],
    day: &Day,
    cost: u32,
    cut: u32,
    g: Segment,
    n: usize,
    p: usize,
    old: Scored,
) -> Scored
    requires { CanScoreOn m.now marks.old day.now cost g n p }
    ensures { ScoresOn m.now marks.old day.now g n p old marks.new result }
{
    let mut b = old;
    for i in 0..n {
        b = with_train(m, marks, day, cost, cut, g, n, p, i, b);
        if b.score == AT_ONCE {
            return b;
        }
    }
    b
}

// The higher scored of the old conflict and that at station s; the old one where it has none.
fn with_station(
    m: &[u16; 352],
    marks: &mut [u16; 368],
    day: &Day,
    cost: u32,
    cut: u32,
    s: usize,
    old: Scored,
) -> Scored
    requires { CanSelect m.now marks.old day.now cost × (1 ≤ s) × (s + 1 < day.now.layout.stations)
        × KnownReal m.now day.now old.conflict }
    ensures { FindsReal m.now marks.old day.now marks.new result.conflict }
{
    let Some(x) = crowd_on(&day.ds, m, s, day.layout.tracks[s], day.layout.trains) else {
        return old;
    };
    higher_scored(m, marks, day, cost, cut, x, old)
}

// The higher scored of the old conflict and those at a place. With `count` segments the places below `count` are the segments, and place `count` + s is
// the middle station s, from 1 on and below `count`.
pub fn with_place(
    m: &[u16; 352],
    marks: &mut [u16; 368],
    day: &Day,
    cost: u32,
    cut: u32,
    place: usize,
    old: Scored,
) -> Scored
    requires { CanSelect m.now marks.old day.now cost × KnownReal m.now day.now old.conflict }
    ensures { FindsReal m.now marks.old day.now marks.new result.conflict }
{
    let count = day.layout.stations - 1;
    if place < count {
        let g = day.layout.segments[place];
        return with_segment(m, marks, day, cost, cut, g, day.layout.trains, place, old);
    }
    let s = place - count;
    if s == 0 || s >= count {
        return old;
    }
    with_station(m, marks, day, cost, cut, s, old)
}

// The place, or 0 where it is past the last of so many.
fn around(place: usize, places: usize) -> usize
    requires { 0 < places }
    ensures { result < places }
{
    if place < places { place } else { 0 }
}

// Whether a train departs at another minute than before on segment p: all sixteen are compared at once, as in `same_row` of the walk.
fn row_changed(m: &[u16; 352], former: &[u16; 352], p: usize) -> bool
    requires { p < 11 }
{
    let mut changed = false;
    for i in 0..16 {
        if m[16 * p + i] != former[16 * p + i] {
            changed = true;
        }
    }
    changed
}

// The places to look at: as before, and each segment whose minutes changed with the stations at its ends.
fn places_to_look(m: &[u16; 352], former: &[u16; 352], count: usize, look: u32) -> u32
    requires { count ≤ 11 }
{
    let mut places = look;
    for p in 0..count {
        if row_changed(m, former, p) {
            places |= 1 << p | 3 << (count + p);
        }
    }
    places
}

// The score of a conflict at a place, varied by a row of drawn numbers; the highest score stays.
fn found_score(score: u32, row: usize, place: usize) -> u32 {
    if score == AT_ONCE {
        return score;
    }
    varied(score, row, 64 * (place % 24))
}

// The scan goes on at a place: the higher scored of what it has and the conflicts there, or the place has none.
fn select_at(
    m: &[u16; 352],
    marks: &mut [u16; 368],
    day: &Day,
    cost: u32,
    cut: u32,
    place: usize,
    old: Selected,
) -> Selected
    requires { CanSelect m.now marks.old day.now cost × KnownReal m.now day.now old.conflict × (place < 24) }
    ensures { FindsReal m.now marks.old day.now marks.new result.conflict }
{
    let hint = old.hint;
    if (hint.look >> place) % 2 == 0 {
        return old;
    }
    let found = with_place(m, marks, day, cost, cut, place, NOTHING);
    let Some(conflict) = found.conflict else {
        let look = hint.look & (EVERYWHERE - (1 << place));
        return Selected {
            hint: hint_from(hint, hint.start, look),
            ..old
        };
    };
    let score = found_score(found.score, hint.row, place);
    if !settled_before(cost, cut, score, conflict, old.score, old.conflict) {
        return old;
    }
    Selected {
        conflict: Some(conflict),
        score,
        hint: hint_from(hint, place, hint.look),
    }
}

// The highest scored conflict that a scan once around finds; at once where one has the highest score.
fn highest_scored(
    m: &[u16; 352],
    marks: &mut [u16; 368],
    day: &Day,
    cost: u32,
    cut: u32,
    hint: Hint,
) -> Selected
    requires { CanSelect m.now marks.old day.now cost }
    ensures { FindsReal m.now marks.old day.now marks.new result.conflict }
{
    let count = day.layout.stations - 1;
    let places = count + count;
    let mut p = around(hint.start, places);
    let mut b = Selected {
        conflict: None,
        score: 0,
        hint,
    };
    for _ in 0..places {
        b = select_at(m, marks, day, cost, cut, p, b);
        if b.score == AT_ONCE {
            return b;
        }
        p = around(p + 1, places);
    }
    b
}

// A conflict of the minutes m, if there is one: the highest scored of a scan by the hint, which speaks of the former minutes. The marks are as before.
pub fn select_conflict(
    m: &[u16; 352],
    former: &[u16; 352],
    marks: &mut [u16; 368],
    day: &Day,
    cost: u32,
    cut: u32,
    hint: Hint,
) -> Selected
    requires { CanSelect m.now marks.old day.now cost }
    ensures { ChoosesOne m.now marks.old day.now marks.new result.conflict }
{
    let next = Hint {
        look: places_to_look(m, former, day.layout.stations - 1, hint.look),
        ahead: false,
        row: next_row(hint.row),
        ..hint
    };
    let b = highest_scored(m, marks, day, cost, cut, next);
    if b.conflict.is_some() {
        return b;
    }
    Selected {
        conflict: lowest_conflict(day.layout, &day.ds, m),
        score: 0,
        hint: first_hint(hint.long, hint.row, hint.first),
    }
}
