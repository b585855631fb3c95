// Raising for a choice: the least minutes of a plan with one choice more, from those of the plan, and a first look whether there are any.
ghost use Rattle.std.specs.Prelude.{◌≡◌, true};
ghost use Rattle.plans.specs.Clauses.Choosing.{CanRaise, Fails, RaisesChoice};

use crate::ways::Way;
use orders::prospects::{come_after_fails, follow_fails};
use orders::raising::{come_after, follow};
use orders::tables::Tables;

// Copies the minutes entry by entry: where a whole array is assigned through a reference the archive for C asks for `memmove` from outside.
pub fn copy_minutes(m: &[u16; 352], q: &mut [u16; 352])
    ensures { q.new ≡ m.now }
{
    for e in 0..352 {
        q[e] = m[e];
    }
}

// The least minutes with the way's choice, marked already, at or above those in q, and what they cost; None where none are in time for the cut.
pub fn raised(
    q: &mut [u16; 352],
    marks: &[u16; 368],
    t: &Tables,
    ds: &[u16; 176],
    way: Way,
    cost: u32,
    cut: u32,
) -> Option<u32>
    requires { CanRaise q.old marks.now t.now ds.now way cost cut }
    ensures { RaisesChoice q.old marks.now t.now ds.now way cost cut q.new result }
{
    if cut < cost {
        return None;
    }
    if way.station {
        come_after(q, marks, t, ds, way.leg, way.second, cost, cut)
    } else {
        follow(q, marks, t, ds, way.leg, way.second, cost, cut)
    }
}

// Whether it shows at a first look that there are none. A true answer is what counts: what is not seen here, raising finds.
pub fn fails(
    m: &[u16; 352],
    marks: &[u16; 368],
    t: &Tables,
    ds: &[u16; 176],
    way: Way,
    cost: u32,
    cut: u32,
) -> bool
    requires { CanRaise m.now marks.now t.now ds.now way cost cut }
    ensures { result ≡ true → Fails m.now marks.now t.now ds.now way cost cut }
{
    if cut < cost {
        return true;
    }
    if way.station {
        come_after_fails(m, marks, t, ds, way.leg, way.second, cost, cut)
    } else {
        follow_fails(m, marks, t, ds, way.leg, way.second, cost, cut)
    }
}
