// Raising minutes: a leg that must be later, and all that follows from it, with what the minutes cost. It ends at once where an arrival passes its limit,
// the cost passes the cut, or the source itself, the event that the choice's arc starts from, would rise: then no minutes keep it.
ghost use Rattle.std.specs.Prelude.{◌≡◌, ◌⊎◌, true, ◌+◌, ◌≤◌, ◌<◌, get_or};
ghost use Rattle.orders.specs.Plan.Bits.{in_mask};
ghost use Rattle.orders.specs.Graph.LegGraph.{leaving};
ghost use Rattle.orders.specs.Lift.Lifting.{Ready, Lifted, Followed, After, Gone, Choosing, Follows, Comes, Chose};
ghost use Rattle.orders.specs.Lift.RaisedPaths.{LegRaised, PathRaised};

use crate::arcs::{coming_leg, leaving_row, source_of, times_behind};
use crate::bits::next_bit;
use crate::tables::{Tables, limit_at, next_at, run_at, stop_at};
use crate::times::{arrival_for, departure_for, more_cost, rises, source_rises};

// Raises leg e to depart at v and arrive at w or later, and nothing else. A struct for what travels along here was tried, and slower in the walk by a tenth.
fn raise_leg(
    m: &mut [u16; 352],
    marks: &[u16; 368],
    t: &Tables,
    ds: &[u16; 176],
    e: usize,
    v: u16,
    w: u16,
    src: usize,
    cost: u32,
    cut: u32,
) -> Option<u32>
    requires { Ready m.old marks.now t.now ds.now e cost cut × ((get_or m.old e 0 < v) ⊎ (get_or m.old (176 + e) 0 < w)) × (v ≤ 20000) × (w ≤ 20000) }
    ensures { LegRaised marks.now t.now ds.now src cut e v w m.old m.new result }
{
    let d = m[e];
    let a = m[176 + e];
    let run = run_at(t, e);
    let departure = departure_for(d, v, w, run);
    let arrival = arrival_for(a, w, departure, run);
    if arrival > limit_at(t, e) {
        return None;
    }
    if source_rises(src, e, d, departure, a, arrival) {
        return None;
    }
    let c = cost + more_cost(t, e, a, arrival);
    if c > cut {
        return None;
    }
    m[e] = departure;
    m[176 + e] = arrival;
    Some(c)
}

// How many legs of a path were raised, and what the minutes cost.
#[derive(Clone, Copy)]
pub struct Path {
    pub legs: usize,
    pub cost: u32,
}

// Raises leg e to depart at v and arrive at w or later, and the legs after it on the train's path as far as they must be later.
fn raise_path(
    m: &mut [u16; 352],
    marks: &[u16; 368],
    t: &Tables,
    ds: &[u16; 176],
    e: usize,
    v: u16,
    w: u16,
    src: usize,
    cost: u32,
    cut: u32,
) -> Option<Path>
    requires { Ready m.old marks.now t.now ds.now e cost cut × ((get_or m.old e 0 < v) ⊎ (get_or m.old (176 + e) 0 < w)) × (v ≤ 20000) × (w ≤ 20000) }
    ensures { PathRaised marks.now t.now ds.now src cut e v w m.old m.new result }
{
    let mut c = raise_leg(m, marks, t, ds, e, v, w, src, cost, cut)?;
    let mut f = e;
    let mut legs: usize = 1;
    // Nothing is counted but the legs raised: the path ends where a leg need not move.
    loop {
        let next = next_at(t, f);
        if next == f {
            return Some(Path { legs, cost: c });
        }
        let ready = m[176 + f] + stop_at(t, f);
        if m[next] >= ready {
            return Some(Path { legs, cost: c });
        }
        c = raise_leg(m, marks, t, ds, next, ready, 0, src, c, cut)?;
        f = next;
        legs += 1;
    }
}

// Raises leg e to depart at v and arrive at w or later, and all that follows: the train's own path first, as it ends soonest where it is late, and then
// leg by leg what goes after it.
#[cycle(comers_followers_lift)]
fn lift(
    m: &mut [u16; 352],
    marks: &[u16; 368],
    t: &Tables,
    ds: &[u16; 176],
    e: usize,
    v: u16,
    w: u16,
    src: usize,
    cost: u32,
    cut: u32,
) -> Option<u32>
    requires { Ready m.old marks.now t.now ds.now e cost cut × ((get_or m.old e 0 < v) ⊎ (get_or m.old (176 + e) 0 < w)) × (v ≤ 20000) × (w ≤ 20000) }
    ensures { Lifted marks.now t.now ds.now src cut e v w m.old m.new result }
{
    let path = raise_path(m, marks, t, ds, e, v, w, src, cost, cut)?;
    let mut c = path.cost;
    let mut f = e;
    for _ in 0..path.legs {
        c = followers(m, marks, t, ds, f, src, c, cut)?;
        c = comers(m, marks, t, ds, f, src, c, cut)?;
        f = next_at(t, f);
    }
    Some(c)
}

// Raises the trains that go after that of leg e on its segment.
#[cycle(comers_followers_lift)]
fn followers(
    m: &mut [u16; 352],
    marks: &[u16; 368],
    t: &Tables,
    ds: &[u16; 176],
    e: usize,
    src: usize,
    cost: u32,
    cut: u32,
) -> Option<u32>
    requires { Ready m.old marks.now t.now ds.now e cost cut }
    ensures { Followed (After e) marks.now t.now ds.now src cut m.old m.new result }
{
    let s = marks[e];
    if s == 0 {
        return Some(cost);
    }
    let mut c = cost;
    let mut j = next_bit(s, 0);
    // Over the marked trains alone: a `for` over all twelve would test each.
    while j < 12 {
        let f = 16 * (e / 16) + j;
        let b = times_behind(m, t, ds, e, j);
        if rises(m[f], b.departure, m[176 + f], b.arrival) {
            c = lift(m, marks, t, ds, f, b.departure, b.arrival, src, c, cut)?;
        }
        j = next_bit(s, j + 1);
    }
    Some(c)
}

// Raises the trains that come to the station of leg e's departure after its train has left.
#[cycle(comers_followers_lift)]
fn comers(
    m: &mut [u16; 352],
    marks: &[u16; 368],
    t: &Tables,
    ds: &[u16; 176],
    e: usize,
    src: usize,
    cost: u32,
    cut: u32,
) -> Option<u32>
    requires { Ready m.old marks.now t.now ds.now e cost cut }
    ensures { Followed (Gone e) marks.now t.now ds.now src cut m.old m.new result }
{
    let row = leaving_row(ds, e);
    let s = marks[row];
    if s == 0 {
        return Some(cost);
    }
    let mut c = cost;
    let mut j = next_bit(s, 0);
    // Over the marked trains alone: a `for` over all twelve would test each.
    while j < 12 {
        let f = coming_leg(ds, e, j);
        let w = m[e] + 1;
        if m[176 + f] < w {
            c = lift(m, marks, t, ds, f, 0, w, src, c, cut)?;
        }
        j = next_bit(s, j + 1);
    }
    Some(c)
}

// The least minutes with the choice, marked already, that train j goes after that of leg e on its segment, and what they cost; None where none are in
// time for no more than the cut. Where the gap counts at departure and at arrival these are two arcs, and each is lifted for with its own source.
pub fn follow(
    m: &mut [u16; 352],
    marks: &[u16; 368],
    t: &Tables,
    ds: &[u16; 176],
    e: usize,
    j: usize,
    cost: u32,
    cut: u32,
) -> Option<u32>
    requires { Choosing (Follows e j) m.old marks.now t.now ds.now e cost cut × (j < 12) × (in_mask (get_or marks.now e 0) j ≡ true) }
    ensures { Chose marks.now t.now ds.now cut m.old m.new result }
{
    let f = 16 * (e / 16) + j;
    let b = times_behind(m, t, ds, e, j);
    let mut c = cost;
    if m[f] < b.departure {
        let src = source_of(t, ds, e, j);
        c = lift(m, marks, t, ds, f, b.departure, 0, src, cost, cut)?;
    }
    if m[176 + f] < b.arrival {
        return lift(m, marks, t, ds, f, 0, b.arrival, 176 + e, c, cut);
    }
    Some(c)
}

// The same with the choice that train j comes to the station of leg e's departure after its train has left.
pub fn come_after(
    m: &mut [u16; 352],
    marks: &[u16; 368],
    t: &Tables,
    ds: &[u16; 176],
    e: usize,
    j: usize,
    cost: u32,
    cut: u32,
) -> Option<u32>
    requires { Choosing (Comes e j) m.old marks.now t.now ds.now e cost cut × (j < 12) × (in_mask (get_or marks.now (leaving ds.now e) 0) j ≡ true) }
    ensures { Chose marks.now t.now ds.now cut m.old m.new result }
{
    let f = coming_leg(ds, e, j);
    let w = m[e] + 1;
    if m[176 + f] < w {
        return lift(m, marks, t, ds, f, 0, w, e, cost, cut);
    }
    Some(cost)
}
