// The neighbourhood of a timetable: the plan in which every two trains keep, segment by segment, the order that they have in it, but for the trains that
// are free. The timetable is only a hint; what comes of it is a plan to search.
ghost use Rattle.std.specs.Prelude.{◌≡◌, true, ◌≤◌, ◌<◌};
ghost use Rattle.orders.specs.Lift.Lifting.{Alive, told_cost};
ghost use Rattle.solver.specs.Search.Neighbourhood.{CanKeep, Leads, OrderToKeep, WithChoice, OnSegment, OnLayout};

use line::{Kind, Segment};
use orders::bits::has_bit;
use plans::choosing::raised;
use plans::day::Day;
use plans::ways::{Way, with_bit};

// Marks that train i goes before train j on segment p, and raises what follows.
fn keep_first(
    m: &mut [u16; 352],
    marks: &mut [u16; 368],
    day: &Day,
    p: usize,
    i: usize,
    j: usize,
    cost: u32,
    cut: u32,
) -> Option<u32>
    requires { CanKeep (WithChoice day.now p i j) marks.old m.old cost }
    ensures { Alive result → Leads (WithChoice day.now p i j) marks.old m.old cost marks.new m.new (told_cost result) }
{
    let e = 16 * p + i;
    marks[e] = with_bit(marks[e], j);
    let way = Way {
        station: false,
        row: e,
        leg: e,
        second: j,
    };
    raised(m, marks, &day.tables, &day.ds, way, cost, cut)
}

// Whether trains i and j have an order to keep on segment p, which is g: neither is free, both use it, and they do not go opposite ways on two tracks.
fn keeps_order(g: Segment, day: &Day, p: usize, i: usize, j: usize, free: u16) -> bool
    requires { (p < 11) × (i < 12) × (j < 12) }
    ensures { result ≡ true → OrderToKeep g day.now.ds p i j }
{
    let a = day.ds[16 * p + i];
    let b = day.ds[16 * p + j];
    if has_bit(free, i) || has_bit(free, j) || a == 0 || b == 0 {
        return false;
    }
    a == b || !matches!(g.kind, Kind::D)
}

// Keeps the order of trains i and j on segment p, which is g, if they have one to keep: the earlier departure goes first, and train i where they are equal.
fn keep_pair(
    m: &mut [u16; 352],
    marks: &mut [u16; 368],
    kept: &[u16; 352],
    day: &Day,
    g: Segment,
    p: usize,
    i: usize,
    j: usize,
    free: u16,
    cost: u32,
    cut: u32,
) -> Option<u32>
    requires { CanKeep (OnSegment day.now g p) marks.old m.old cost × (i < 12) × (j < 12) }
    ensures { Alive result → Leads (OnSegment day.now g p) marks.old m.old cost marks.new m.new (told_cost result) }
{
    if !keeps_order(g, day, p, i, j, free) {
        return Some(cost);
    }
    if kept[16 * p + j] < kept[16 * p + i] {
        return keep_first(m, marks, day, p, j, i, cost, cut);
    }
    keep_first(m, marks, day, p, i, j, cost, cut)
}

// The orders of train i, of n, with those above it.
fn keep_train(
    m: &mut [u16; 352],
    marks: &mut [u16; 368],
    kept: &[u16; 352],
    day: &Day,
    g: Segment,
    n: usize,
    p: usize,
    i: usize,
    free: u16,
    cost: u32,
    cut: u32,
) -> Option<u32>
    requires { CanKeep (OnSegment day.now g p) marks.old m.old cost × (n ≤ 12) × (i < n) }
    ensures { Alive result → Leads (OnSegment day.now g p) marks.old m.old cost marks.new m.new (told_cost result) }
{
    let mut c = cost;
    for j in i + 1..n {
        c = keep_pair(m, marks, kept, day, g, p, i, j, free, c, cut)?;
    }
    Some(c)
}

// The orders of the n trains on segment p, which is g.
fn keep_segment(
    m: &mut [u16; 352],
    marks: &mut [u16; 368],
    kept: &[u16; 352],
    day: &Day,
    g: Segment,
    n: usize,
    p: usize,
    free: u16,
    cost: u32,
    cut: u32,
) -> Option<u32>
    requires { CanKeep (OnSegment day.now g p) marks.old m.old cost × (n ≤ 12) }
    ensures { Alive result → Leads (OnSegment day.now g p) marks.old m.old cost marks.new m.new (told_cost result) }
{
    let mut c = cost;
    for i in 0..n {
        c = keep_train(m, marks, kept, day, g, n, p, i, free, c, cut)?;
    }
    Some(c)
}

// Adds to the plan the orders of the timetable `kept` between trains of which neither is free (bit i of the mask for train i), and raises its minutes to the
// least. What they cost, or None where none are in time for the cut.
pub fn keep_orders(
    m: &mut [u16; 352],
    marks: &mut [u16; 368],
    kept: &[u16; 352],
    day: &Day,
    free: u16,
    cost: u32,
    cut: u32,
) -> Option<u32>
    requires { CanKeep (OnLayout day.now) marks.old m.old cost }
    ensures { Alive result → Leads (OnLayout day.now) marks.old m.old cost marks.new m.new (told_cost result) }
{
    let mut c = cost;
    for p in 0..day.layout.stations - 1 {
        c = keep_segment(
            m,
            marks,
            kept,
            day,
            day.layout.segments[p],
            day.layout.trains,
            p,
            free,
            c,
            cut,
        )?;
    }
    Some(c)
}
