// Bookings by train and leg: the minutes before which the trains do not depart, and whether they keep them.
ghost use Rattle.std.specs.Prelude.{◌≡◌, ◌<◌, length, slice_index_or};
ghost use Rattle.finite.specs.Below.{EachBelow};
ghost use Rattle.line.specs.Record.{no_booking};
ghost use Rattle.line.specs.Runnable.{Runnable};
ghost use Rattle.rules.specs.Statement.Paths.{Routed};
ghost use Rattle.rules.specs.Check.Floors.{floor_in, Floors, FloorsBy, HasEntry};
ghost use Rattle.rules.specs.Check.Tests.{booked_right};

use crate::rules::departure_of;
use line::{Booking, Line, Train, legs_between};

// The floors of these trains by these bookings.
fn floors_by(bookings: &[Booking], trains: &[Train; 12]) -> [u16; 176]
    requires { EachBelow (length bookings.now) (λ j. HasEntry trains.now (slice_index_or bookings.now j no_booking)) }
    ensures { FloorsBy trains.now bookings.now (length bookings.now) result }
{
    let mut floors = [0u16; 176];
    for booking in bookings {
        let i = usize::from(booking.train) - 1;
        let e = 16 * legs_between(trains[i].origin, booking.station) + i;
        floors[e] = floors[e].max(booking.minute);
    }
    floors
}

// The floors under the departures of a line's trains: the minute booked for train i on its leg k at entry 16 k + i, or 0 where there is none.
pub fn floors_of(line: Line) -> [u16; 176]
    requires { Runnable line }
    ensures { Floors line result }
{
    let count = usize::from(line.booked.booking_count);
    floors_by(&line.booked.bookings[..count], &line.traffic.trains)
}

// The floor of train i on its leg k.
pub fn floor_at(floors: &[u16; 176], i: usize, k: usize) -> u16
    requires { (i < 12) × (k < 11) }
    ensures { result ≡ floor_in floors.now i k }
{
    floors[16 * k + i]
}

// Rule 18 of a train, which is train i: it departs on no leg before its floor.
pub fn booked_right(train: Train, floors: &[u16; 176], m: &[u16; 352], i: usize) -> bool
    requires { Routed train × (i < 12) }
    ensures { result ≡ booked_right (floor_in floors.now i) train m.now i }
{
    let legs = legs_between(train.origin, train.destination);
    (0..legs).all(|k| floor_at(floors, i, k) <= departure_of(train, m, i, k))
}
