// The minutes of one leg as raising moves them: its departure, its arrival, and what they cost.
ghost use Rattle.std.specs.Prelude.{◌≡◌, ◌⊎◌, true, false, ◌≤◌, ◌<◌};
ghost use Rattle.orders.specs.LineTables.Tables.{weight_in};
ghost use Rattle.orders.specs.Raise.LegTimes.{Departs, Arrives, SourceRises, more_cost};

use crate::tables::{Tables, due_at, weight_at};

// The departure of a leg that departs at d: it is to depart at v and to arrive at w, or later.
pub fn departure_for(d: u16, v: u16, w: u16, run: u16) -> u16
    ensures { Departs d v w run result }
{
    let mut r = d;
    if r < v {
        r = v;
    }
    if run < w && r < w - run {
        r = w - run;
    }
    r
}

// Its arrival, where it arrives at a and is to depart at d.
pub fn arrival_for(a: u16, w: u16, d: u16, run: u16) -> u16
    requires { (d ≤ 30000) × (run ≤ 240) }
    ensures { Arrives a w d run result }
{
    let mut r = a;
    if r < w {
        r = w;
    }
    let s = d + run;
    if r < s {
        r = s;
    }
    r
}

// Whether the source of the choice is an event of leg e that rises.
pub fn source_rises(src: usize, e: usize, d: u16, departure: u16, a: u16, arrival: u16) -> bool
    requires { e < 176 }
    ensures { SourceRises src e d departure a arrival result }
{
    (src == e && d < departure) || (src == 176 + e && a < arrival)
}

// Whether a leg that departs at d and arrives at a must rise to v and w.
pub fn rises(d: u16, v: u16, a: u16, w: u16) -> bool
    ensures { (result ≡ true → (d < v) ⊎ (a < w)) × (result ≡ false → (v ≤ d) × (w ≤ a)) }
{
    d < v || a < w
}

// What it costs more that leg e arrives at `to` and not at `from`.
pub fn more_cost(t: &Tables, e: usize, from: u16, to: u16) -> u32
    requires { (e < 176) × (weight_in t.now e ≤ 99) × (from ≤ to) × (to ≤ 2879) }
    ensures { (result ≡ more_cost t.now e from to) × (result ≤ 285021) }
{
    let weight = weight_at(t, e);
    if weight == 0 {
        return 0;
    }
    let due = due_at(t, e);
    if to <= due {
        return 0;
    }
    if from < due {
        return u32::from(weight) * u32::from(to - due);
    }
    u32::from(weight) * u32::from(to - from)
}
