// A first look at a choice, before anything is raised: by its own legs alone the train that has to wait may be late already, or cost too much, or the
// choice may contradict a mark.
ghost use Rattle.std.specs.Prelude.{◌≡◌, true, ◌≤◌, ◌<◌, get_or};
ghost use Rattle.orders.specs.Plan.Bits.{in_mask};
ghost use Rattle.orders.specs.Graph.LegGraph.{leaving};
ghost use Rattle.orders.specs.Lift.Lifting.{Ready, Choosing, Follows, Comes, NoneChosen};
ghost use Rattle.orders.specs.Look.Prospects.{NoneFrom, GoesBefore};

use crate::arcs::{coming_leg, times_behind};
use crate::bits::has_bit;
use crate::tables::{Tables, last_at, limit_at, next_at, rest_at, run_at};
use crate::times::{arrival_for, more_cost};

// What a choice is looked at from: the minutes, what they cost and may cost, and the marks, tables and directions of the line.
#[derive(Clone, Copy)]
struct Prospect<'a> {
    m: &'a [u16; 352],
    marks: &'a [u16; 368],
    t: &'a Tables,
    ds: &'a [u16; 176],
    cost: u32,
    cut: u32,
}

impl Prospect<'_> {
    // Whether a train that arrives by its last leg e at this minute or later is late, or costs more than the cut.
    fn end_fails(&self, e: usize, arrival: u16) -> bool
        requires { Ready self.now.m.now self.now.marks.now self.now.t.now self.now.ds.now e self.now.cost self.now.cut }
        ensures { result ≡ true → NoneFrom self.now.marks.now self.now.t.now self.now.ds.now self.now.cut e 0 arrival self.now.m.now }
    {
        if arrival > limit_at(self.t, e) {
            return true;
        }
        let former = self.m[176 + e];
        arrival > former && self.cost + more_cost(self.t, e, former, arrival) > self.cut
    }

    // Whether the train of leg e, which is to depart there at v and to arrive at w or later, is late at its end or costs more than the cut: from there it needs
    // the runs and stops that are left.
    fn train_fails(&self, e: usize, v: u16, w: u16) -> bool
        requires { Ready self.now.m.now self.now.marks.now self.now.t.now self.now.ds.now e self.now.cost self.now.cut × (v ≤ 20000) × (w ≤ 20000) }
        ensures { result ≡ true → NoneFrom self.now.marks.now self.now.t.now self.now.ds.now self.now.cut e v w self.now.m.now }
    {
        let arrival = arrival_for(0, w, v, run_at(self.t, e));
        self.end_fails(last_at(self.t, e), arrival + rest_at(self.t, e))
    }

    // Whether train j is marked to go over the segment of leg e before its train, as it comes there by leg f or leaves by its next one. Then it cannot come to
    // the station of leg e's departure after that train has left.
    fn goes_before(&self, e: usize, f: usize, j: usize) -> bool
        requires { (e < 176) × (f < 176) × (j < 12) }
        ensures { result ≡ true → GoesBefore self.now.marks.now self.now.t.now self.now.ds.now e f j }
    {
        let x = 16 * (e / 16) + j;
        let i = e % 16;
        if i >= 12 || !has_bit(self.marks[x], i) {
            return false;
        }
        if f == x {
            self.ds[f] != self.ds[e]
        } else {
            next_at(self.t, f) == x
        }
    }
}

// Whether no minutes with the choice, marked already, that train j goes after that of leg e on its segment are in time for no more than the cut. A true
// answer is what counts: what is not seen here, raising finds.
pub fn follow_fails(
    m: &[u16; 352],
    marks: &[u16; 368],
    t: &Tables,
    ds: &[u16; 176],
    e: usize,
    j: usize,
    cost: u32,
    cut: u32,
) -> bool
    requires { Choosing (Follows e j) m.now marks.now t.now ds.now e cost cut × (j < 12) × (in_mask (get_or marks.now e 0) j ≡ true) }
    ensures { result ≡ true → NoneChosen marks.now t.now ds.now cut m.now }
{
    let b = times_behind(m, t, ds, e, j);
    Prospect {
        m,
        marks,
        t,
        ds,
        cost,
        cut,
    }
    .train_fails(16 * (e / 16) + j, b.departure, b.arrival)
}

// The same for the choice that train j comes to the station of leg e's departure after its train has left.
pub fn come_after_fails(
    m: &[u16; 352],
    marks: &[u16; 368],
    t: &Tables,
    ds: &[u16; 176],
    e: usize,
    j: usize,
    cost: u32,
    cut: u32,
) -> bool
    requires { Choosing (Comes e j) m.now marks.now t.now ds.now e cost cut × (j < 12) × (in_mask (get_or marks.now (leaving ds.now e) 0) j ≡ true) }
    ensures { result ≡ true → NoneChosen marks.now t.now ds.now cut m.now }
{
    let f = coming_leg(ds, e, j);
    let prospect = Prospect {
        m,
        marks,
        t,
        ds,
        cost,
        cut,
    };
    prospect.goes_before(e, f, j) || prospect.train_fails(f, 0, m[e] + 1)
}
