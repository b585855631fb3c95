// The ways out of a conflict, by number.
ghost use Rattle.std.specs.Prelude.{◌≡◌, ◌+◌, ◌*◌, ◌≤◌, ◌<◌, Some, IfSome};
ghost use Rattle.rules.specs.declared.conflicts.Conflict.{Conflict as SomeConflict};
ghost use Rattle.orders.specs.Plan.Bits.{with_bit};
ghost use Rattle.plans.specs.Conflict.Ways.{two_of, way_of, way_count};
ghost use Rattle.plans.specs.Clauses.WaysTold.{leg_out, InRange, TellsWay, TellsOnSegment, Steps, NextPair};

use orders::bits::{has_bit, next_bit};
use rules::conflicts::{Conflict, SegmentConflict, StationConflict};

// A way out: the row of its mark and the train that the mark names, the leg of the train that goes first, and whether it is at a station, which
// tells the two kinds of choice apart as `is_station` of the definitions does.
#[derive(Clone, Copy)]
pub struct Way {
    pub station: bool,
    pub row: usize,
    pub leg: usize,
    pub second: usize,
}

// The way out that a number has, if any, and how far on the next number is that may have one.
#[derive(Clone, Copy)]
pub struct WayOut {
    pub way: Option<Way>,
    pub step: usize,
}

#[tactic(auto, using(crate::proofs::Clauses::WaysToldLaws::bit_put))]
pub fn with_bit(mask: u16, i: usize) -> u16
    requires { i < 16 }
    ensures { result ≡ with_bit i mask }
{
    mask | (1 << i)
}

// Whether these are two different trains of the mask.
fn two_of(mask: u16, a: usize, b: usize) -> bool
    requires { (a < 16) × (b < 16) }
    ensures { result ≡ two_of mask a b }
{
    has_bit(mask, a) && has_bit(mask, b) && a != b
}

// The leg on which train a leaves its middle station s.
#[tactic(auto, unfolding(crate::specs::Clauses::WaysTold::leg_out))]
fn leg_out(ds: &[u16; 176], s: usize, a: usize) -> usize
    requires { (1 ≤ s) × (s ≤ 10) × (a < 12) }
    ensures { result ≡ leg_out ds.now s a }
{
    if ds[16 * s + a] == 1 {
        16 * s + a
    } else {
        16 * (s - 1) + a
    }
}

// How many numbers the ways out have; none where there is no conflict.
pub fn way_count(conflict: Option<Conflict>) -> usize
    ensures { result ≡ way_count conflict }
{
    match conflict {
        None => 0,
        Some(Conflict::OnSegment(_)) => 2,
        Some(Conflict::AtStation(_)) => 144,
    }
}

fn segment_way(x: SegmentConflict, w: usize) -> Way
    requires { InRange (SomeConflict.OnSegment x) }
    ensures { TellsOnSegment x w result }
{
    let (first, second) = if w == 0 {
        (x.lower, x.higher)
    } else {
        (x.higher, x.lower)
    };
    let e = 16 * x.segment + first;
    Way {
        station: false,
        row: e,
        leg: e,
        second,
    }
}

// How far it is from the number of trains a and b to the next that may have a way.
fn pair_step(mask: u16, a: usize, b: usize) -> usize
    requires { (a < 12) × (b < 12) }
    ensures { NextPair mask (12 * a + b) result }
{
    let next = next_bit(mask, b + 1);
    if next < 12 {
        return next - b;
    }
    let row = next_bit(mask, a + 1);
    if row < 12 {
        return 12 * row + next_bit(mask, 0) - (12 * a + b);
    }
    144 - (12 * a + b)
}

fn station_way(x: StationConflict, ds: &[u16; 176], w: usize) -> WayOut
    requires { InRange (SomeConflict.AtStation x) × (w < 144) }
    ensures { TellsWay ds.now (way_of (Some (SomeConflict.AtStation x)) w) result.way × Steps (Some (SomeConflict.AtStation x)) w result.step }
{
    let a = w / 12;
    let b = w % 12;
    let step = pair_step(x.trains, a, b);
    if !two_of(x.trains, a, b) {
        return WayOut { way: None, step };
    }
    let way = Way {
        station: true,
        row: 176 + (16 * x.station + a),
        leg: leg_out(ds, x.station, a),
        second: b,
    };
    WayOut {
        way: Some(way),
        step,
    }
}

// Way w out of the conflict; no way where there is none.
#[tactic(auto, using(crate::proofs::Clauses::WaysToldLaws::steps_one, crate::proofs::Clauses::WaysToldLaws::tells_nothing))]
pub fn way_of(conflict: Option<Conflict>, ds: &[u16; 176], w: usize) -> WayOut
    requires { IfSome conflict InRange × (w < 144) }
    ensures { TellsWay ds.now (way_of conflict w) result.way × Steps conflict w result.step }
{
    match conflict {
        None => WayOut { way: None, step: 1 },
        Some(Conflict::OnSegment(x)) => WayOut {
            way: Some(segment_way(x, w)),
            step: 1,
        },
        Some(Conflict::AtStation(x)) => station_way(x, ds, w),
    }
}
