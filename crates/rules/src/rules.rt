// The first rule that some minutes break, in number order, with its lowest train, segment or station.
ghost use Rattle.std.specs.Prelude.{◌≡◌, ℕ, ◌<◌, ◌≤◌, Bool, length, slice_index_or};
ghost use Rattle.line.specs.Record.{legs_between, legs_of};
ghost use Rattle.line.specs.Within.{Within};
ghost use Rattle.rules.specs.Statement.Paths.{past_train, Routed, segment_between};
ghost use Rattle.rules.specs.Check.Floors.{Floors};
ghost use Rattle.rules.specs.Check.Tests.{departure_of, arrival_of, starts_right, runs_right, stops_right, ends_right};
ghost use Rattle.rules.specs.Check.Breaches.{lowest_breach, TestedBy, place_of, conflict_breach, breach_of};

use crate::bookings::{booked_right, floors_of};
use crate::conflicts::{Conflict, layout_of, lowest_conflict};
use crate::directions::directions_of;
use crate::passages::{arrives_on, departs_on};
use line::{Line, Train, legs_between};
use text::Refusal;

// The segment of leg k of a train between these stations.
pub fn segment_between(origin: u16, destination: u16, k: usize) -> usize
    requires { (1 ≤ origin) × (origin ≤ 12) × (1 ≤ destination) × (destination ≤ 12) × (k < legs_between origin destination) }
    ensures { (result ≡ segment_between origin destination k) × (result < 11) }
{
    let o = usize::from(origin);
    if origin < destination {
        o - 1 + k
    } else {
        o - 2 - k
    }
}

// The minutes of leg k of a train, which is train i.
pub fn departure_of(train: Train, m: &[u16; 352], i: usize, k: usize) -> u16
    requires { Routed train × (i < 12) × (k < legs_of train) }
    ensures { result ≡ departure_of train m.now i k }
{
    departs_on(m, segment_between(train.origin, train.destination, k), i)
}

pub fn arrival_of(train: Train, m: &[u16; 352], i: usize, k: usize) -> u16
    requires { Routed train × (i < 12) × (k < legs_of train) }
    ensures { result ≡ arrival_of train m.now i k }
{
    arrives_on(m, segment_between(train.origin, train.destination, k), i)
}

// Rule 10 of a train, which is train i.
fn starts_right(train: Train, m: &[u16; 352], i: usize) -> bool
    requires { Routed train × (i < 12) }
    ensures { result ≡ starts_right train m.now i }
{
    train.earliest <= departure_of(train, m, i, 0)
}

// Rule 11 of every leg of a train.
fn runs_right(train: Train, m: &[u16; 352], i: usize) -> bool
    requires { Routed train × (i < 12) }
    ensures { result ≡ runs_right train m.now i }
{
    let legs = legs_between(train.origin, train.destination);
    (0..legs).all(|k| {
        let arrival = u32::from(arrival_of(train, m, i, k));
        let departure = u32::from(departure_of(train, m, i, k));
        arrival == departure + u32::from(train.runs[k])
    })
}

// Rule 12 of a train at every middle station.
fn stops_right(train: Train, m: &[u16; 352], i: usize) -> bool
    requires { Routed train × (i < 12) }
    ensures { result ≡ stops_right train m.now i }
{
    let legs = legs_between(train.origin, train.destination);
    (0..legs - 1).all(|k| {
        let arrival = u32::from(arrival_of(train, m, i, k));
        let departure = u32::from(departure_of(train, m, i, k + 1));
        arrival + u32::from(train.stops[k]) <= departure
    })
}

// Rule 13 of a train.
fn ends_right(train: Train, m: &[u16; 352], i: usize) -> bool
    requires { Routed train × (i < 12) }
    ensures { result ≡ ends_right train m.now i }
{
    let last = legs_between(train.origin, train.destination) - 1;
    arrival_of(train, m, i, last) <= train.latest
}

// The lowest of these trains that fails a test, which is that of the rule of this number.
fn breach_among<F: Fn(Train, usize) -> bool>(
    rule: u8,
    trains: &[Train],
    test: F,
) -> Result<(), Refusal>
    requires { (i : ℕ) → i < length trains.now → F.pre test (slice_index_or trains.now i past_train) i }
    ensures { (keeps : ℕ → Bool) → TestedBy (F.post test) trains.now keeps → result ≡ lowest_breach rule keeps (length trains.now) }
{
    for (i, train) in trains.iter().enumerate() {
        if !test(*train, i) {
            return Err(Refusal {
                number: rule,
                place: i + 1,
            });
        }
    }
    Ok(())
}

fn conflict_breach(conflict: Option<Conflict>) -> Result<(), Refusal>
    requires { place_of conflict < 12 }
    ensures { result ≡ conflict_breach conflict }
{
    let (number, place) = match conflict {
        None => return Ok(()),
        Some(Conflict::OnSegment(x)) => (14, x.segment + 1),
        Some(Conflict::AtStation(x)) => (15, x.station + 1),
    };
    Err(Refusal { number, place })
}

// The first rule that the minutes break, by the floors of the line.
fn breach_by(line: Line, floors: &[u16; 176], m: &[u16; 352]) -> Result<(), Refusal>
    requires { Within line × Floors line floors.now }
    ensures { result ≡ breach_of line m.now }
{
    let trains = &line.traffic.trains[..usize::from(line.traffic.train_count)];
    breach_among(10, trains, |train, i| starts_right(train, m, i))?;
    breach_among(11, trains, |train, i| runs_right(train, m, i))?;
    breach_among(12, trains, |train, i| stops_right(train, m, i))?;
    breach_among(18, trains, |train, i| booked_right(train, floors, m, i))?;
    breach_among(13, trains, |train, i| ends_right(train, m, i))?;
    conflict_breach(lowest_conflict(layout_of(line), &directions_of(line), m))
}

// The first rule that the minutes break.
pub fn breach_of(line: Line, m: &[u16; 352]) -> Result<(), Refusal>
    requires { Within line }
    ensures { result ≡ breach_of line m.now }
{
    breach_by(line, &floors_of(line), m)
}
