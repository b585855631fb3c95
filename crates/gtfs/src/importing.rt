// Reading stop_times.txt for a line: the minutes, or the number and place of the first bad line; and the minutes as train lines.
ghost use Rattle.std.specs.Prelude.{◌≡◌, ◌+◌, ◌≤◌, ◌<◌, replicate};
ghost use Rattle.text.specs.Places.Lines.{Counted};
ghost use Rattle.text.specs.Reading.Told.{told};
ghost use Rattle.text.specs.Writing.Lend.{Lent};
ghost use Rattle.line.specs.File.{answered};
ghost use Rattle.line.specs.Record.{legs_of};
ghost use Rattle.line.specs.Within.{Within};
ghost use Rattle.rules.specs.Statement.Paths.{Routed};
ghost use Rattle.gtfs.specs.Reading.{clock_at, stop_time_at, repeats, is_next, due_at, stops_at, trip_at, trips_at, stop_times_file};
ghost use Rattle.gtfs.specs.Operations.{spelt, minutes_of, lines_of, importing};

use crate::stops::{Stop, StopTime, stop_on};
use line::reading::read;
use line::{Line, Train, legs_between};
use rules::rules::segment_between;
use text::{Cursor, Faults, LINE_FEED, Limits, Refusal};
use timetable::writing::write_lines;

pub const COMMA: u8 = 44;

pub const COLON: u8 = 58;
// A line that is not of the form, whatever is wrong with it.
const FAULTS: Faults = Faults {
    form: 20,
    range: 20,
};

// Times of day as stop_times.txt has them.
#[derive(Clone, Copy)]
pub struct Clock {}

impl Clock {
    // "a minute past 47:59:00" is refused.
    pub const HOURS: Limits = Limits { min: 0, max: 47 };

    pub const MINUTES: Limits = Limits { min: 0, max: 59 };
}

// Numbers of one to four digits, whatever their value.
#[derive(Clone, Copy)]
pub struct Numeral {}

impl Numeral {
    pub const LIMITS: Limits = Limits { min: 0, max: 9999 };
}

// A time of day and the comma after it: its minute.
#[tactic(auto, unfolding(crate::specs::Reading::clock_at))]
fn clock_field(s: &[u8], start: Cursor) -> Result<(u16, Cursor), Refusal>
    requires { Counted start }
    ensures { told result ≡ clock_at s.now start }
{
    let (hour, after_hour) = start.paired(s, COLON, Clock::HOURS, FAULTS)?;
    let (minute, after_minute) = after_hour.paired(s, COLON, Clock::MINUTES, FAULTS)?;
    let next = after_minute.past_text(s, b"00,", FAULTS.form)?;
    Ok((hour * 60 + minute, next))
}

// The form of a line.
#[tactic(auto, unfolding(crate::specs::Reading::stop_time_at))]
fn stop_time(s: &[u8], start: Cursor) -> Result<(StopTime, Cursor), Refusal>
    requires { Counted start }
    ensures { told result ≡ stop_time_at s.now start }
{
    let after_letter = start.past_text(s, b"T", FAULTS.form)?;
    let (trip, after_trip) = after_letter.ranged(s, COMMA, Numeral::LIMITS, FAULTS)?;
    let (arrival, after_arrival) = clock_field(s, after_trip)?;
    let (departure, after_departure) = clock_field(s, after_arrival)?;
    let (station, after_station) = after_departure.ranged(s, COMMA, Numeral::LIMITS, FAULTS)?;
    let (sequence, next) = after_station.ranged(s, LINE_FEED, Numeral::LIMITS, FAULTS)?;
    let time = StopTime {
        trip,
        arrival,
        departure,
        station,
        sequence,
    };
    Ok((time, next))
}

// At an end of the path both times are the same.
#[tactic(auto, unfolding(crate::specs::Reading::repeats))]
fn repeats(due: Stop, time: StopTime) -> bool
    ensures { result ≡ repeats due time }
{
    !due.end || time.arrival == time.departure
}

// Trip, station and sequence are those of the stop that is due.
#[tactic(auto, unfolding(crate::specs::Reading::is_next))]
fn is_next(due: Stop, time: StopTime) -> bool
    ensures { result ≡ is_next due time }
{
    time.trip == due.trip && time.station == due.station && time.sequence == due.sequence
}

// The line of the stop that is due.
#[tactic(auto, unfolding(crate::specs::Reading::due_at))]
fn due_line(s: &[u8], start: Cursor, due: Stop) -> Result<(StopTime, Cursor), Refusal>
    requires { Counted start }
    ensures { told result ≡ due_at due s.now start }
{
    let (time, next) = stop_time(s, start)?;
    if !repeats(due, time) {
        return Err(Refusal {
            number: FAULTS.form,
            place: start.line,
        });
    }
    if !is_next(due, time) {
        return Err(Refusal {
            number: 21,
            place: start.line,
        });
    }
    Ok((time, next))
}

// The stops of a train, which is train i, after its origin, which it left at minute `from`.
fn stop_lines(
    s: &[u8],
    start: Cursor,
    train: Train,
    i: usize,
    from: u16,
    minutes: [u16; 352],
) -> Result<([u16; 352], Cursor), Refusal>
    requires { Routed train × (i < 12) × Counted start }
    ensures { told result ≡ stops_at (legs_of train) train i 0 from minutes s.now start }
{
    let mut at = minutes;
    let mut departure = from;
    let mut cursor = start;
    for j in 0..legs_between(train.origin, train.destination) {
        let (time, next) = due_line(s, cursor, stop_on(train, i, j + 1))?;
        let p = segment_between(train.origin, train.destination, j);
        at[16 * p + i] = departure;
        at[176 + (16 * p + i)] = time.arrival;
        departure = time.departure;
        cursor = next;
    }
    Ok((at, cursor))
}

// The lines of a train, which is train i.
fn trip_lines(
    s: &[u8],
    start: Cursor,
    train: Train,
    i: usize,
    minutes: [u16; 352],
) -> Result<([u16; 352], Cursor), Refusal>
    requires { Routed train × (i < 12) × Counted start }
    ensures { told result ≡ trip_at (legs_of train) train i minutes s.now start }
{
    let (origin, next) = due_line(s, start, stop_on(train, i, 0))?;
    stop_lines(s, next, train, i, origin.departure, minutes)
}

// The lines of the trains. The loop is that of `train_lines` in `timetable`: with the reader of a train as a closure it would be longer than both.
fn all_lines(s: &[u8], start: Cursor, line: Line) -> Result<([u16; 352], Cursor), Refusal>
    requires { Within line × Counted start }
    ensures { told result ≡ trips_at line.traffic.train_count line 0 (replicate 352 0) s.now start }
{
    let mut at = [0u16; 352];
    let mut cursor = start;
    for i in 0..usize::from(line.traffic.train_count) {
        (at, cursor) = trip_lines(s, cursor, line.traffic.trains[i], i, at)?;
    }
    Ok((at, cursor))
}

// The whole text for a line: the header, the lines of the trains, and nothing after them.
#[tactic(auto, unfolding(crate::specs::Reading::stop_times_file))]
fn read_stop_times(s: &[u8], line: Line) -> Result<[u16; 352], Refusal>
    requires { Within line }
    ensures { result ≡ answered (stop_times_file line s.now) }
{
    let start = Cursor { at: 0, line: 1 };
    let header = b"trip_id,arrival_time,departure_time,stop_id,stop_sequence\n";
    let after_header = start.past_text(s, header, FAULTS.form)?;
    let (minutes, end) = all_lines(s, after_header, line)?;
    if end.at < s.len() {
        return Err(Refusal {
            number: FAULTS.form,
            place: end.line,
        });
    }
    Ok(minutes)
}

// Imports stop_times.txt for a line file, whatever the bytes: the minutes, or the number and place of documents 01 and 02.
pub fn import(file: &[u8], stop_times: &[u8]) -> Result<[u16; 352], Refusal>
    ensures { result ≡ answered (minutes_of file.now stop_times.now) }
{
    let line = read(file)?;
    read_stop_times(stop_times, line)
}

// A text for a line: its minutes as train lines in the lent bytes, or the refusal and no byte changed.
fn import_lines_for(line: Line, stop_times: &[u8], out: &mut [u8]) -> Result<usize, Refusal>
    requires { Within line }
    ensures { Lent (spelt (lines_of line (stop_times_file line stop_times.now))) out.old out.new result }
{
    let minutes = read_stop_times(stop_times, line)?;
    write_lines(line, minutes, out)
}

// Imports stop_times.txt for a line file and writes the minutes as train lines into the lent bytes: their length, or a refusal and no byte changed.
pub fn import_lines(file: &[u8], stop_times: &[u8], out: &mut [u8]) -> Result<usize, Refusal>
    ensures { Lent (importing file.now stop_times.now) out.old out.new result }
{
    let line = read(file)?;
    import_lines_for(line, stop_times, out)
}
