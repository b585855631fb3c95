// Writing stop_times.txt for the minutes of a timetable that was read for its line; rules, lists and total are not tested.
ghost use Rattle.std.specs.Prelude.{◌≡◌, [], ◌++◌, ◌+◌, ◌≤◌, ◌<◌, length};
ghost use Rattle.text.specs.Writing.Lend.{Spelling, Lent};
ghost use Rattle.line.specs.Record.{legs_of};
ghost use Rattle.line.specs.Within.{Within};
ghost use Rattle.rules.specs.Statement.Paths.{Routed, EachTrain};
ghost use Rattle.rules.specs.Statement.Rules.{InDays};
ghost use Rattle.timetable.specs.Reading.{timetable_file};
ghost use Rattle.gtfs.specs.Stops.{origin_time, leaves_after, time_after};
ghost use Rattle.gtfs.specs.Spell.{clock_text, stop_time_text, stops_text, trip_text, trips_text, stop_times_text};
ghost use Rattle.gtfs.specs.Operations.{spelt, stop_times_of, exporting};

use crate::importing::{COLON, COMMA};
use crate::stops::{StopTime, stop_on, timed};
use line::reading::read;
use line::{Line, MAX_BYTES, Train, legs_between};
use rules::rules::{arrival_of, departure_of};
use text::writer::Writer;
use text::{LINE_FEED, Refusal};
use timetable::reading::read_timetable;

// A minute as a time of day, and the comma after it.
fn put_clock(out: &mut Writer<MAX_BYTES>, minute: u16)
    requires { length out.old + length (clock_text minute []) ≤ 4096 }
    ensures { out.new ≡ out.old ++ clock_text minute [] }
{
    out.pair(u32::from(minute) / 60);
    out.byte(COLON);
    out.pair(u32::from(minute) % 60);
    out.text(b":00,");
}

// A line.
#[tactic(auto, unfolding(crate::specs::Spell::stop_time_text))]
fn put_stop_time(out: &mut Writer<MAX_BYTES>, time: StopTime)
    requires { length out.old + length (stop_time_text time []) ≤ 4096 }
    ensures { out.new ≡ out.old ++ stop_time_text time [] }
{
    out.byte(b'T');
    out.field(u32::from(time.trip), COMMA);
    put_clock(out, time.arrival);
    put_clock(out, time.departure);
    out.field(u32::from(time.station), COMMA);
    out.field(u32::from(time.sequence), LINE_FEED);
}

// The departure from the stop to which leg j leads.
fn leaves_after(train: Train, m: &[u16; 352], i: usize, j: usize) -> u16
    requires { Routed train × (i < 12) × (j < legs_of train) }
    ensures { result ≡ leaves_after train m.now i j }
{
    let next = j + 1;
    if next < legs_between(train.origin, train.destination) {
        departure_of(train, m, i, next)
    } else {
        arrival_of(train, m, i, j)
    }
}

// The times at the origin of a train, which is train i.
fn origin_time(train: Train, m: &[u16; 352], i: usize) -> StopTime
    requires { Routed train × (i < 12) }
    ensures { result ≡ origin_time train m.now i }
{
    let departure = departure_of(train, m, i, 0);
    timed(stop_on(train, i, 0), departure, departure)
}

// The times at the stop to which leg j leads.
fn time_after(train: Train, m: &[u16; 352], i: usize, j: usize) -> StopTime
    requires { Routed train × (i < 12) × (j < legs_of train) }
    ensures { result ≡ time_after train m.now i j }
{
    let arrival = arrival_of(train, m, i, j);
    timed(
        stop_on(train, i, j + 1),
        arrival,
        leaves_after(train, m, i, j),
    )
}

// The stops of a train, which is train i, after its origin.
fn put_stops(out: &mut Writer<MAX_BYTES>, train: Train, m: &[u16; 352], i: usize)
    requires { Routed train × (i < 12) × (length out.old + length (stops_text (legs_of train) train m.now i 0 []) ≤ 4096) }
    ensures { out.new ≡ out.old ++ stops_text (legs_of train) train m.now i 0 [] }
{
    let legs = legs_between(train.origin, train.destination);
    for j in 0..legs {
        put_stop_time(out, time_after(train, m, i, j));
    }
}

// The lines of a train, which is train i.
fn put_trip(out: &mut Writer<MAX_BYTES>, train: Train, m: &[u16; 352], i: usize)
    requires { Routed train × (i < 12) × (length out.old + length (trip_text (legs_of train) train m.now i []) ≤ 4096) }
    ensures { out.new ≡ out.old ++ trip_text (legs_of train) train m.now i [] }
{
    put_stop_time(out, origin_time(train, m, i));
    put_stops(out, train, m, i);
}

// The lines of the trains. The loop is that of `put_trains` in `timetable`: with what is put as a closure it would be longer than both.
fn put_trips(out: &mut Writer<MAX_BYTES>, line: Line, m: &[u16; 352])
    requires { Within line × (length out.old + length (trips_text line.traffic.train_count line m.now 0 []) ≤ 4096) }
    ensures { out.new ≡ out.old ++ trips_text line.traffic.train_count line m.now 0 [] }
{
    for i in 0..usize::from(line.traffic.train_count) {
        put_trip(out, line.traffic.trains[i], m, i);
    }
}

// The whole text.
fn put_stop_times(out: &mut Writer<MAX_BYTES>, line: Line, m: &[u16; 352])
    requires { Within line × (out.old ≡ []) }
    ensures { out.new ≡ stop_times_text line m.now }
{
    out.text(b"trip_id,arrival_time,departure_time,stop_id,stop_sequence\n");
    put_trips(out, line, m);
}

// Writes the text of minutes within the two days into the lent bytes: its length, or 6 and no byte changed.
fn write_stop_times(line: Line, minutes: [u16; 352], out: &mut [u8]) -> Result<usize, Refusal>
    requires { Within line × EachTrain line (InDays line minutes) }
    ensures { Lent (Spelling.text (stop_times_text line minutes)) out.old out.new result }
{
    let mut text = Writer::new();
    put_stop_times(&mut text, line, &minutes);
    text.lend(out)
}

// A timetable for a line: its stop times in the lent bytes, or the refusal and no byte changed.
fn export_for(line: Line, timetable: &[u8], out: &mut [u8]) -> Result<usize, Refusal>
    requires { Within line }
    ensures { Lent (spelt (stop_times_of line (timetable_file line timetable.now))) out.old out.new result }
{
    let (read, _) = read_timetable(timetable, line)?;
    write_stop_times(line, read.minutes, out)
}

// Exports a timetable as stop_times.txt, whatever the bytes: the text's length, or the number and place of documents 01 and 02 and no byte changed.
pub fn export(file: &[u8], timetable: &[u8], out: &mut [u8]) -> Result<usize, Refusal>
    ensures { Lent (exporting file.now timetable.now) out.old out.new result }
{
    let line = read(file)?;
    export_for(line, timetable, out)
}
