// Rule 15 at one station: when trains stand there, and the earliest minute at which they are more than its tracks.
ghost use Rattle.std.specs.Prelude.{◌≡◌, ◌<◌, ◌≤◌};
ghost use Rattle.finite.specs.Below.{count};
ghost use Rattle.rules.specs.Conflict.Conflicts.{stay, stands_in, earliest_crowd, crowd_mask, crowd_at};
ghost use Rattle.rules.specs.Scan.Scanning.{StaysOf, stands_by};

use crate::conflicts::{Conflict, StationConflict};
use crate::directions::way_on;
use crate::passages::{arrives_on, departs_on};
use line::Time;

// When a train stands at a station: from its arrival to its departure, both included.
#[derive(Clone, Copy)]
pub struct Stay {
    pub came: u16,
    pub leaves: u16,
}

// When the trains stand at a station, by train; one that does not stop there leaves before it comes. Two lists, not one of stays: counting over them is one
// vector comparison of 39 instructions, over one list it is of 59.
#[derive(Clone, Copy)]
pub struct Stays {
    pub came: [u16; 16],
    pub leaves: [u16; 16],
}

impl Stays {
    // How many stand there at minute t.
    fn standing(&self, t: u16) -> u16
        ensures { result ≡ count (stands_by self.now.came self.now.leaves t) 16 }
    {
        let mut count: u16 = 0;
        for i in 0..16 {
            if self.came[i] <= t && t <= self.leaves[i] {
                count += 1;
            }
        }
        count
    }
}

// When train i stands at station s, which is neither the first nor the last of the line; nothing where it is not a middle one of its path.
fn stay_at(ds: &[u16; 176], m: &[u16; 352], s: usize, i: usize) -> Option<Stay>
    requires { (1 ≤ s) × (s < 11) × (i < 12) }
    ensures { result ≡ stay ds.now m.now s i }
{
    let before = s - 1;
    let way = way_on(ds, s, i);
    if way == 0 || way_on(ds, before, i) == 0 {
        return None;
    }
    if way == 1 {
        return Some(Stay {
            came: arrives_on(m, before, i),
            leaves: departs_on(m, s, i),
        });
    }
    Some(Stay {
        came: arrives_on(m, s, i),
        leaves: departs_on(m, before, i),
    })
}

fn stands(stay: Option<Stay>, t: u16) -> bool
    ensures { result ≡ stands_in stay t }
{
    stay.is_some_and(|stay| stay.came <= t && t <= stay.leaves)
}

// When n trains stand at station s.
fn stays_at(ds: &[u16; 176], m: &[u16; 352], s: usize, n: usize) -> Stays
    requires { (1 ≤ s) × (s < 11) × (n ≤ 12) }
    ensures { StaysOf ds.now m.now n s result }
{
    let mut came = [65535u16; 16];
    let mut leaves = [0u16; 16];
    for i in 0..n {
        if let Some(stay) = stay_at(ds, m, s, i) {
            came[i] = stay.came;
            leaves[i] = stay.leaves;
        }
    }
    Stays { came, leaves }
}

// The earliest minute at which more stand at station s than it has tracks. Only arrivals need a look.
fn earliest_crowd(ds: &[u16; 176], m: &[u16; 352], s: usize, tracks: u16, n: usize) -> Option<u16>
    requires { (1 ≤ s) × (s < 11) × (n ≤ 12) }
    ensures { result ≡ earliest_crowd ds.now m.now n tracks s }
{
    let stays = stays_at(ds, m, s, n);
    let mut earliest = Time::END;
    for i in 0..n {
        let t = stays.came[i];
        if t < earliest && stays.standing(t) > tracks {
            earliest = t;
        }
    }
    (earliest < Time::END).then_some(earliest)
}

// The lowest trains that stand at station s at minute t, one more than its tracks.
fn crowd_mask(ds: &[u16; 176], m: &[u16; 352], s: usize, t: u16, tracks: u16, n: usize) -> u16
    requires { (1 ≤ s) × (s < 11) × (n ≤ 12) }
    ensures { result ≡ crowd_mask ds.now m.now n tracks s t }
{
    let mut mask: u16 = 0;
    let mut bit: u16 = 1;
    let mut count: u16 = 0;
    for i in 0..n {
        if stands(stay_at(ds, m, s, i), t) {
            if count <= tracks {
                mask += bit;
            }
            count += 1;
        }
        bit *= 2;
    }
    mask
}

// The conflict at station s, if there is one.
pub fn crowd_on(
    ds: &[u16; 176],
    m: &[u16; 352],
    s: usize,
    tracks: u16,
    n: usize,
) -> Option<Conflict>
    requires { (1 ≤ s) × (s < 11) × (n ≤ 12) }
    ensures { result ≡ crowd_at ds.now m.now n tracks s (earliest_crowd ds.now m.now n tracks s) }
{
    let minute = earliest_crowd(ds, m, s, tracks, n)?;
    Some(Conflict::AtStation(StationConflict {
        station: s,
        minute,
        trains: crowd_mask(ds, m, s, minute, tracks, n),
    }))
}
