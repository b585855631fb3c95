// The stops of a train: the stations of its path with trip and sequence, and the two times at each. A line of stop_times.txt says one of them.
ghost use Rattle.std.specs.Prelude.{◌≡◌, ◌≤◌, ◌<◌};
ghost use Rattle.line.specs.Record.{legs_between, legs_of};
ghost use Rattle.rules.specs.Statement.Paths.{Routed};
ghost use Rattle.gtfs.specs.Stops.{station_between, stop_on, timed};

use line::{Train, legs_between};

// A station of a train's path: the train's number, the station's, which of the path's it is, from 1, and whether the path begins or ends there.
#[derive(Clone, Copy)]
pub struct Stop {
    pub trip: u16,
    pub station: u16,
    pub sequence: u16,
    pub end: bool,
}

// What a line of stop_times.txt says.
#[derive(Clone, Copy)]
pub struct StopTime {
    pub trip: u16,
    pub arrival: u16,
    pub departure: u16,
    pub station: u16,
    pub sequence: u16,
}

// The number of station k of a path between these stations, from 0.
#[tactic(auto, unfolding(crate::specs::Stops::station_between))]
fn station_between(origin: u16, destination: u16, k: usize) -> u16
    requires { (origin ≤ 12) × (destination ≤ 12) × (k ≤ legs_between origin destination) }
    ensures { result ≡ station_between origin destination k }
{
    if origin < destination {
        origin + k as u16
    } else {
        origin - k as u16
    }
}

// Stop k of a train, which is train i, from 0.
#[tactic(auto, unfolding(crate::specs::Stops::stop_on))]
pub fn stop_on(train: Train, i: usize, k: usize) -> Stop
    requires { Routed train × (i < 12) × (k ≤ legs_of train) }
    ensures { result ≡ stop_on train i k }
{
    let legs = legs_between(train.origin, train.destination);
    Stop {
        trip: i as u16 + 1,
        station: station_between(train.origin, train.destination, k),
        sequence: k as u16 + 1,
        end: k == 0 || k == legs,
    }
}

// A stop with its times.
pub fn timed(stop: Stop, arrival: u16, departure: u16) -> StopTime
    ensures { result ≡ timed stop arrival departure }
{
    StopTime {
        trip: stop.trip,
        arrival,
        departure,
        station: stop.station,
        sequence: stop.sequence,
    }
}
