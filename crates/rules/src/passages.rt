// Rule 14 on one segment: how trains go over it, whether one of two goes first, and the lowest pair of which neither does.
ghost use Rattle.std.specs.Prelude.{◌≡◌, ◌<◌, ◌≤◌};
ghost use Rattle.rules.specs.Statement.Minutes.{departs_on, arrives_on};
ghost use Rattle.rules.specs.Conflict.Conflicts.{neither_first, passage, partner_of, pair_on};
ghost use Rattle.rules.specs.Scan.Scanning.{RoomFor, Denies, BothDeny, neither_alone, keeps_behind, neither_behind};

use crate::conflicts::{Conflict, SegmentConflict};
use crate::directions::way_on;
use line::{Kind, Segment};

pub fn departs_on(m: &[u16; 352], p: usize, i: usize) -> u16
    requires { (p < 11) × (i < 16) }
    ensures { result ≡ departs_on m.now p i }
{
    m[16 * p + i]
}

pub fn arrives_on(m: &[u16; 352], p: usize, i: usize) -> u16
    requires { (p < 11) × (i < 16) }
    ensures { result ≡ arrives_on m.now p i }
{
    m[176 + (16 * p + i)]
}

// How a train goes over a segment.
#[derive(Clone, Copy)]
pub struct Passage {
    pub way: u16,
    pub departs: u16,
    pub arrives: u16,
}

// How train i goes over segment p. Directions and minutes come apart: the first are made once for a line, the others for each plan.
pub fn passage_of(ds: &[u16; 176], m: &[u16; 352], p: usize, i: usize) -> Passage
    requires { (p < 11) × (i < 12) }
    ensures { result ≡ passage ds.now m.now p i }
{
    Passage {
        way: way_on(ds, p, i),
        departs: departs_on(m, p, i),
        arrives: arrives_on(m, p, i),
    }
}

// How much later y is than gap after x. Where it is earlier the difference wraps, and so has its highest bit.
fn room(x: u16, gap: u16, y: u16) -> u32
    ensures { RoomFor x gap y result }
{
    u32::from(y).wrapping_sub(u32::from(x) + u32::from(gap))
}

// Whether two answers have the highest bit. It is one test in place of two: which of two trains goes first is hard to foresee for a processor, that one of
// them does is not.
fn both_deny(one: u32, other: u32) -> bool
    ensures { BothDeny one other result }
{
    (one & other) >= 1 << 31
}

// Whether neither leaves the segment so long before the other enters it.
fn neither_alone(gap: u16, x: Passage, y: Passage) -> bool
    ensures { result ≡ neither_alone gap x y }
{
    let one_first = room(x.arrives, gap, y.departs);
    let other_first = room(y.arrives, gap, x.departs);
    both_deny(one_first, other_first)
}

// Has the highest bit where y does not depart and arrive so long after x.
fn behind(gap: u16, x: Passage, y: Passage) -> u32
    ensures { Denies (keeps_behind gap x y) result }
{
    room(x.departs, gap, y.departs) | room(x.arrives, gap, y.arrives)
}

// Whether neither goes so long behind the other.
fn neither_behind(gap: u16, x: Passage, y: Passage) -> bool
    ensures { result ≡ neither_behind gap x y }
{
    let one_first = behind(gap, x, y);
    let other_first = behind(gap, y, x);
    both_deny(one_first, other_first)
}

// Whether neither of x and y goes first on the segment.
pub fn neither(g: Segment, x: Passage, y: Passage) -> bool
    ensures { result ≡ neither_first g x y }
{
    let same = x.way == y.way;
    match g.kind {
        Kind::S => {
            let gap = if same { g.following } else { g.opposing };
            neither_alone(gap, x, y)
        }
        Kind::F if !same => neither_alone(g.opposing, x, y),
        Kind::F => neither_behind(g.following, x, y),
        Kind::D => same && neither_behind(g.following, x, y),
    }
}

// The lowest train above i that is in conflict with it on segment p.
fn partner(
    g: Segment,
    ds: &[u16; 176],
    m: &[u16; 352],
    p: usize,
    i: usize,
    n: usize,
) -> Option<usize>
    requires { (p < 11) × (i < n) × (n ≤ 12) }
    ensures { result ≡ partner_of g ds.now m.now p n i }
{
    let x = passage_of(ds, m, p, i);
    if x.way == 0 {
        return None;
    }
    for j in i + 1..n {
        let y = passage_of(ds, m, p, j);
        if y.way != 0 && neither(g, x, y) {
            return Some(j);
        }
    }
    None
}

// The lowest pair in conflict on segment p.
pub fn pair_on(g: Segment, ds: &[u16; 176], m: &[u16; 352], p: usize, n: usize) -> Option<Conflict>
    requires { (p < 11) × (n ≤ 12) }
    ensures { result ≡ pair_on g ds.now m.now n p }
{
    for i in 0..n {
        if let Some(j) = partner(g, ds, m, p, i, n) {
            return Some(Conflict::OnSegment(SegmentConflict {
                segment: p,
                lower: i,
                higher: j,
            }));
        }
    }
    None
}
