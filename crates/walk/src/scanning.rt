// The scan for the lowest conflict of a plan that comes from another by one choice. Few of its minutes differ, so segments that had no conflict below the
// other's lowest one are looked at only for the trains whose minutes changed. What is found is the same.
ghost use Rattle.std.specs.Prelude.{◌≡◌, true, false, ◌+◌, ◌*◌, ◌-◌, ◌≤◌, ◌<◌, None};
ghost use Rattle.rules.specs.Conflict.Conflicts.{pair_on, segment_conflict, conflict_in};
ghost use Rattle.rules.specs.Scan.Scanning.{LaidOut, Scans};
ghost use Rattle.walk.specs.Scanning.{SameRow, SameOn, SameTimes, InNoConflict, ChangedApart, ClearBelow, ScansAgain, clear_segments};

use line::Segment;
use rules::conflicts::{Conflict, Layout, station_conflict};
use rules::passages::{arrives_on, departs_on, neither, pair_on, passage_of};

// Whether the minutes of a row, from entry b on, are those that they were. A true answer is what counts: the row of a false one is looked at again.
#[tactic(auto, unfolding(crate::specs::Scanning::SameRow))]
fn same_row(m: &[u16; 352], former: &[u16; 352], b: usize) -> bool
    requires { (b + 16 ≤ 352) }
    ensures { result ≡ true → SameRow m.now former.now b }
{
    // `==` on the two slices, which stops at the first that differs, took five times as long.
    let mut same = true;
    for i in 0..16 {
        if m[b + i] != former[b + i] {
            same = false;
        }
    }
    same
}

fn same_on(m: &[u16; 352], former: &[u16; 352], p: usize) -> bool
    requires { (p < 11) }
    ensures { result ≡ true → SameOn m.now former.now p }
{
    same_row(m, former, 16 * p) && same_row(m, former, 176 + 16 * p)
}

// Whether train i goes over segment p at the minutes of before.
fn same_times(m: &[u16; 352], former: &[u16; 352], p: usize, i: usize) -> bool
    requires { (p < 11) × (i < 12) }
    ensures { result ≡ true → SameTimes m.now former.now p i }
{
    departs_on(m, p, i) == departs_on(former, p, i)
        && arrives_on(m, p, i) == arrives_on(former, p, i)
}

// Whether train i is in conflict with any other on segment p.
#[tactic(auto, unfolding(crate::specs::Scanning::InNoConflict))]
fn in_conflict(g: Segment, ds: &[u16; 176], m: &[u16; 352], p: usize, i: usize, n: usize) -> bool
    requires { (p < 11) × (i < n) × (n ≤ 12) }
    ensures { result ≡ false → InNoConflict g ds.now m.now p n i }
{
    let x = passage_of(ds, m, p, i);
    if x.way == 0 {
        return false;
    }
    for j in 0..n {
        let y = passage_of(ds, m, p, j);
        if y.way != 0 && j != i && neither(g, x, y) {
            return true;
        }
    }
    false
}

// Whether no train whose minutes on segment p changed is in conflict there.
#[tactic(auto, unfolding(crate::specs::Scanning::ChangedApart))]
fn changed_apart(
    g: Segment,
    ds: &[u16; 176],
    m: &[u16; 352],
    former: &[u16; 352],
    p: usize,
    n: usize,
) -> bool
    requires { (p < 11) × (n ≤ 12) }
    ensures { result ≡ true → ChangedApart g ds.now m.now former.now p n n }
{
    for i in 0..n {
        if !same_times(m, former, p, i) && in_conflict(g, ds, m, p, i, n) {
            return false;
        }
    }
    true
}

// Whether segment p, which had no conflict at the former minutes, shows to have none: only trains whose minutes changed are looked at.
fn still_clear(
    g: Segment,
    ds: &[u16; 176],
    m: &[u16; 352],
    former: &[u16; 352],
    p: usize,
    n: usize,
) -> bool
    requires { (p < 11) × (n ≤ 12)
        × (pair_on g ds.now former.now n p ≡ None) }
    ensures { result ≡ true → pair_on g ds.now m.now n p ≡ None }
{
    same_on(m, former, p) || changed_apart(g, ds, m, former, p, n)
}

// How many segments show to have no conflict, of the first `clear`, which had none at the former minutes.
fn clear_again(
    layout: Layout,
    ds: &[u16; 176],
    m: &[u16; 352],
    former: &[u16; 352],
    clear: usize,
) -> usize
    requires { ScansAgain layout ds.now m.now former.now clear }
    ensures { ClearBelow layout ds.now m.now result }
{
    for p in 0..clear {
        if !still_clear(layout.segments[p], ds, m, former, p, layout.trains) {
            return p;
        }
    }
    clear
}

// The lowest segment with a conflict, and its lowest pair, where those below `clear` have none: the scan of `rules` from there on, apart from it as that none
// is below is said by a definition of the walk.
fn conflict_from(layout: Layout, ds: &[u16; 176], m: &[u16; 352], clear: usize) -> Option<Conflict>
    requires { Scans layout ds.now m.now × ClearBelow layout ds.now m.now clear }
    ensures { result ≡ segment_conflict layout.segments ds.now m.now (layout.stations - 1) layout.trains }
{
    for p in clear..layout.stations - 1 {
        if let Some(found) = pair_on(layout.segments[p], ds, m, p, layout.trains) {
            return Some(found);
        }
    }
    None
}

// The lowest segment with a conflict, and its lowest pair. Those below `clear` had none at the former minutes.
fn segment_conflict(
    layout: Layout,
    ds: &[u16; 176],
    m: &[u16; 352],
    former: &[u16; 352],
    clear: usize,
) -> Option<Conflict>
    requires { ScansAgain layout ds.now m.now former.now clear }
    ensures { result ≡ segment_conflict layout.segments ds.now m.now (layout.stations - 1)
        layout.trains }
{
    let known = clear_again(layout, ds, m, former, clear);
    conflict_from(layout, ds, m, known)
}

// The lowest conflict of the minutes m. The segments below `clear` had none at the former minutes; where nothing is known, `clear` is 0.
#[tactic(auto, unfolding(rules::specs::Conflict::Conflicts::conflict_in))]
pub fn lowest_conflict(
    layout: Layout,
    ds: &[u16; 176],
    m: &[u16; 352],
    former: &[u16; 352],
    clear: usize,
) -> Option<Conflict>
    requires { ScansAgain layout ds.now m.now former.now clear }
    ensures { result ≡ conflict_in layout ds.now m.now }
{
    segment_conflict(layout, ds, m, former, clear).or_else(|| station_conflict(layout, ds, m))
}

// How many segments have no conflict, where this is the lowest conflict, or there is none.
pub fn clear_segments(layout: Layout, conflict: Option<Conflict>) -> usize
    requires { LaidOut layout }
    ensures { result ≡ clear_segments layout conflict }
{
    match conflict {
        None => layout.stations - 1,
        Some(Conflict::OnSegment(x)) => x.segment,
        Some(Conflict::AtStation(_)) => layout.stations - 1,
    }
}
