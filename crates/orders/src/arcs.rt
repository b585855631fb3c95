// What leaves a leg: when another train may go behind it on its segment, and which trains come to its station of departure.
ghost use Rattle.std.specs.Prelude.{◌≡◌, ◌≤◌, ◌<◌};
ghost use Rattle.orders.specs.Graph.LegGraph.{station_of, leaving, comes_on};
ghost use Rattle.orders.specs.Raise.LegTimes.{CanGoBehind, GoesBehind, source_of};

use crate::tables::{Tables, following_at, opposing_at, shared_at};

// When train j may go after that of leg e: a departure, and an arrival. 0, which is before every minute, asks for none.
#[derive(Clone, Copy)]
pub struct Behind {
    pub departure: u16,
    pub arrival: u16,
}

pub fn times_behind(m: &[u16; 352], t: &Tables, ds: &[u16; 176], e: usize, j: usize) -> Behind
    requires { CanGoBehind m.now t.now ds.now e j }
    ensures { GoesBehind m.now t.now ds.now e j result.departure result.arrival × (result.departure ≤ 2939) × (result.arrival ≤ 2939) }
{
    if ds[e] == ds[16 * (e / 16) + j] {
        let gap = following_at(t, e / 16);
        let arrival = m[176 + e] + gap;
        if shared_at(t, e / 16) {
            let departure = m[e] + gap;
            return Behind { departure, arrival };
        }
        return Behind {
            departure: arrival,
            arrival: 0,
        };
    }
    let departure = m[176 + e] + opposing_at(t, e / 16);
    Behind {
        departure,
        arrival: 0,
    }
}

// The event that this choice starts from.
pub fn source_of(t: &Tables, ds: &[u16; 176], e: usize, j: usize) -> usize
    requires { (e < 176) × (j < 12) }
    ensures { result ≡ source_of t.now ds.now e j }
{
    if ds[e] == ds[16 * (e / 16) + j] && shared_at(t, e / 16) {
        e
    } else {
        176 + e
    }
}

fn station_of(ds: &[u16; 176], e: usize) -> usize
    requires { e < 176 }
    ensures { (result ≡ station_of ds.now e) × (result ≤ 11) }
{
    if ds[e] == 1 { e / 16 } else { e / 16 + 1 }
}

// The row of the marks of leg e's departure.
pub fn leaving_row(ds: &[u16; 176], e: usize) -> usize
    requires { e < 176 }
    ensures { (result ≡ leaving ds.now e) × (result < 368) }
{
    176 + (16 * station_of(ds, e) + e % 16)
}

// The leg on which train j, which has that station as a middle one, comes to it.
pub fn coming_leg(ds: &[u16; 176], e: usize, j: usize) -> usize
    requires { (e < 176) × (j < 12) }
    ensures { result ≡ comes_on ds.now (station_of ds.now e) j }
{
    let s = station_of(ds, e);
    if s == 0 {
        return j;
    }
    if s == 11 {
        return 176 + j;
    }
    if ds[16 * s + j] == 1 {
        return 16 * (s - 1) + j;
    }
    16 * s + j
}
