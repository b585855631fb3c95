// Free arrival, due minutes and weighted delay.
ghost use Rattle.std.specs.Prelude.{◌≡◌, ◌-◌, ◌<◌};
ghost use Rattle.line.specs.Runnable.{Runnable};
ghost use Rattle.rules.specs.Statement.Paths.{legs};
ghost use Rattle.rules.specs.Statement.Delay.{free_after, free_arrival, listed_for, weighted_delay};
ghost use Rattle.line.specs.Record.{legs_of};
ghost use Rattle.rules.specs.Check.Floors.{Floors, arrived_by, RunsAlone};
ghost use Rattle.rules.specs.Check.Dues.{Dues, MinuteListed};

use crate::bookings::{floor_at, floors_of};
use crate::rules::arrival_of;
use line::{Line, Listed, Train, legs_between};

// When train i, alone on the line, arrives after its leg k.
fn arrived_after(train: Train, floors: &[u16; 176], i: usize, k: usize) -> u16
    requires { RunsAlone train floors.now i k }
    ensures { result ≡ arrived_by train floors.now i k }
{
    let mut arrival = train.earliest + train.runs[0];
    for j in 0..k {
        let ready = arrival + train.stops[j];
        let departure = ready.max(floor_at(floors, i, j + 1));
        arrival = departure + train.runs[j + 1];
    }
    arrival
}

// The same of a line's train i.
pub fn free_after(line: Line, floors: &[u16; 176], i: usize, k: usize) -> u16
    requires { Runnable line × Floors line floors.now × (i < line.traffic.train_count) × (k < legs line i) }
    ensures { result ≡ free_after line i k }
{
    arrived_after(line.traffic.trains[i], floors, i, k)
}

// When train i, alone on the line, comes to its destination.
pub fn free_arrival(line: Line, floors: &[u16; 176], i: usize) -> u16
    requires { Runnable line × Floors line floors.now × (i < line.traffic.train_count) }
    ensures { result ≡ free_arrival line i }
{
    let train = line.traffic.trains[i];
    let last = legs_between(train.origin, train.destination) - 1;
    free_after(line, floors, i, last)
}

// The minute that a list has for train i.
fn listed_of(listed: &[Listed], i: usize) -> Option<u16>
    requires { i < 12 }
    ensures { MinuteListed listed.now i result }
{
    let entry = listed
        .iter()
        .find(|entry| usize::from(entry.train) == i + 1)?;
    Some(entry.minutes)
}

// The due minute of train i by the list of dues: its listed minute, or else its free arrival.
fn due_by(train: Train, listed: &[Listed], floors: &[u16; 176], i: usize) -> u16
    requires { (i < 12) × RunsAlone train floors.now i (legs_of train - 1) }
    ensures { result ≡ listed_for listed.now i (arrived_by train floors.now i (legs_of train - 1)) }
{
    if let Some(minute) = listed_of(listed, i) {
        return minute;
    }
    let last = legs_between(train.origin, train.destination) - 1;
    arrived_after(train, floors, i, last)
}

// The due minutes of a line's trains: that of train i at entry i.
pub fn dues_of(line: Line, floors: &[u16; 176]) -> [u16; 12]
    requires { Runnable line × Floors line floors.now }
    ensures { Dues line result }
{
    let listed = &line.dues.listed[..usize::from(line.dues.count)];
    let mut dues = [0; 12];
    for i in 0..usize::from(line.traffic.train_count) {
        dues[i] = due_by(line.traffic.trains[i], listed, floors, i);
    }
    dues
}

// The sum of weight times delay, by the due minutes of the line.
fn delay_by(line: Line, dues: &[u16; 12], m: &[u16; 352]) -> u32
    requires { Runnable line × Dues line dues.now }
    ensures { result ≡ weighted_delay line m.now }
{
    let mut total: u32 = 0;
    for i in 0..usize::from(line.traffic.train_count) {
        let train = line.traffic.trains[i];
        let last = legs_between(train.origin, train.destination) - 1;
        let arrival = u32::from(arrival_of(train, m, i, last));
        let due = u32::from(dues[i]);
        if due < arrival {
            total += u32::from(train.weight) * (arrival - due);
        }
    }
    total
}

// The sum of weight times delay.
pub fn weighted_delay(line: Line, m: &[u16; 352]) -> u32
    requires { Runnable line }
    ensures { result ≡ weighted_delay line m.now }
{
    let floors = floors_of(line);
    delay_by(line, &dues_of(line, &floors), m)
}
