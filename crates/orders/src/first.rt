// The plan without choices: each train alone on the line, from its earliest on.
ghost use Rattle.std.specs.Prelude.{◌≡◌, ◌/◌, ◌%◌, ◌<◌};
ghost use Rattle.finite.specs.Decide.{Decides};
ghost use Rattle.line.specs.Runnable.{Runnable};
ghost use Rattle.rules.specs.Check.Floors.{Floors};
ghost use Rattle.orders.specs.Graph.LegsLaws.{Leg};
ghost use Rattle.orders.specs.LeastMinutes.FirstPlan.{free_entry, free_minutes, FreeInTime, IsFirstPlan};

use crate::tables::leg_on;
use line::Line;
use rules::bookings::floors_of;
use rules::delay::{free_after, free_arrival, weighted_delay};
use rules::directions::directions_of;

// The minutes of the trains alone on the line, what they cost, and whether all end in time: minutes and cost are promised either way (`IsFirstPlan`).
#[derive(Clone, Copy)]
pub struct FirstPlan {
    pub in_time: bool,
    pub minutes: [u16; 352],
    pub cost: u32,
}

// The minute at entry x, where a train has a leg.
fn leg_minute(line: Line, floors: &[u16; 176], x: usize) -> u16
    requires { Runnable line × Floors line floors.now × (x < 352) × Leg line (x % 176) }
    ensures { result ≡ free_entry line x }
{
    let e = x % 176;
    let i = e % 16;
    let train = line.traffic.trains[i];
    let k = leg_on(train, e / 16);
    let arrival = free_after(line, floors, i, k);
    if x < 176 {
        arrival - train.runs[k]
    } else {
        arrival
    }
}

// The minutes of the trains alone on the line, entry after entry.
fn free_minutes(line: Line, floors: &[u16; 176]) -> [u16; 352]
    requires { Runnable line × Floors line floors.now }
    ensures { result ≡ free_minutes line }
{
    let ds = directions_of(line);
    let mut minutes = [0u16; 352];
    for x in 0..352 {
        minutes[x] = if ds[x % 176] == 0 {
            0
        } else {
            leg_minute(line, floors, x)
        };
    }
    minutes
}

// Whether each train, alone on the line, arrives in time.
fn free_in_time(line: Line, floors: &[u16; 176]) -> bool
    requires { Runnable line × Floors line floors.now }
    ensures { Decides (FreeInTime line) result }
{
    for i in 0..usize::from(line.traffic.train_count) {
        if line.traffic.trains[i].latest < free_arrival(line, floors, i) {
            return false;
        }
    }
    true
}

pub fn first_minutes(line: Line) -> FirstPlan
    requires { Runnable line }
    ensures { IsFirstPlan line result }
{
    let floors = floors_of(line);
    let in_time = free_in_time(line, &floors);
    let minutes = free_minutes(line, &floors);
    let cost = weighted_delay(line, &minutes);
    FirstPlan {
        in_time,
        minutes,
        cost,
    }
}
