// Writing the line file: the first bad field of the record refuses it; else its text goes into the lent bytes, if it fits.
ghost use Rattle.std.specs.Prelude.{ℕ, ◌≡◌, ◌&&◌, List, [], ◌++◌, ⊤, ◌+◌, ◌-◌, ◌≤◌, ◌<◌, length};
ghost use Rattle.text.specs.Elements.EachThen.{each_then};
ghost use Rattle.finite.specs.Each.{Each};
ghost use Rattle.text.specs.Writing.Lend.{Spelling, Lent};
ghost use Rattle.line.specs.Within.{Within};
ghost use Rattle.line.specs.Record.{HasPath};
ghost use Rattle.line.specs.RoundTripLaws.{ReadBack};
ghost use Rattle.line.specs.Spell.{station_text, segment_text, journey_text, head_text, train_text, booking_text, listed_text, booked_text, unbooked, train_list_text, unlisted, text_of};
ghost use Rattle.line.specs.SpellLaws.{station_then, segment_then, train_then, booking_then, listed_then};
ghost use Rattle.text.specs.Reading.Choice.{pick};
ghost use Rattle.line.specs.Writing.{Checked, value_fault, number_fault, lines_fault, times_fault, segment_fault, path_fault, head_fault, train_fault, booking_fault, listed_fault, rising_fault, track_fault_of, traffic_fault_of, booked_fault, list_fault, fault_of, spelling};

use crate::reading::may_stand;
use crate::{
    Booked, Booking, Kind, Line, Listed, MAX_BYTES, Segment, Station, Time, Track, Traffic, Train,
    TrainList, legs_between,
};
use text::writer::Writer;
use text::{LINE_FEED, Limits, Refusal, SPACE};

// A value on a line that was built, or refused.
fn value_fault(value: Option<u16>, line: usize) -> Result<(), Refusal>
    ensures { result ≡ value_fault value line }
{
    match value {
        Some(_) => Ok(()),
        None => Err(Refusal {
            number: 3,
            place: line,
        }),
    }
}

#[tactic(auto, unfolding(crate::specs::Writing::number_fault))]
fn number_fault(n: u16, limits: Limits, line: usize) -> Result<(), Refusal>
    ensures { result ≡ number_fault limits n line }
{
    value_fault(limits.value(u32::from(n)), line)
}

// The first refusal of entries on lines of their own, from line `first` on.
fn lines_fault<T: Copy, F: Fn(T, usize) -> Result<(), Refusal>>(
    entries: &[T],
    first: usize,
    check: F,
) -> Result<(), Refusal>
    requires { F.IsAlwaysCallable check × (length entries.now ≤ 120) × (first ≤ 1000) }
    ensures { (f : ℕ → T → Checked) → ((x : T) (p : ℕ) (r : Checked) → F.post check x p r → r ≡ f p x) → result ≡ lines_fault entries.now f first }
{
    for (i, x) in entries.iter().enumerate() {
        check(*x, first + i)?;
    }
    Ok(())
}

// The same of entries that are each checked with the one before them, the first with `none`.
fn rising_fault<T: Copy, F: Fn(T, T, usize) -> Result<(), Refusal>>(
    entries: &[T],
    none: T,
    first: usize,
    check: F,
) -> Result<(), Refusal>
    requires { F.IsAlwaysCallable check × (length entries.now ≤ 120) × (first ≤ 1000) }
    ensures { (f : T → ℕ → T → Checked) → ((x before : T) (p : ℕ) (r : Checked) → F.post check x before p r → r ≡ f before p x) → result ≡ rising_fault entries.now f none first }
{
    let mut before = none;
    for (i, x) in entries.iter().enumerate() {
        check(*x, before, first + i)?;
        before = *x;
    }
    Ok(())
}

// The first runs or stops of a train, which stand on one line.
fn time_faults(times: &[u16], limits: Limits, line: usize) -> Result<(), Refusal>
    ensures { result ≡ times_fault times.now limits line }
{
    for n in times {
        number_fault(*n, limits, line)?;
    }
    Ok(())
}

#[tactic(auto, unfolding(crate::specs::Writing::segment_fault))]
fn segment_fault(segment: Segment, line: usize) -> Result<(), Refusal>
    ensures { result ≡ segment_fault line segment }
{
    number_fault(segment.following, Segment::GAP, line)?;
    number_fault(segment.opposing, Segment::GAP, line)
}

#[tactic(auto, unfolding(crate::specs::Writing::path_fault, crate::specs::Writing::number_fault))]
fn path_fault(origin: u16, destination: u16, stations: u16, line: usize) -> Result<(), Refusal>
    ensures { result ≡ path_fault stations line origin destination }
{
    value_fault(Station::value(u32::from(origin), stations), line)?;
    value_fault(Station::value(u32::from(destination), stations), line)?;
    if destination == origin {
        return Err(Refusal {
            number: 4,
            place: line,
        });
    }
    Ok(())
}

// The numbers before the runs and stops of a train.
#[tactic(auto, unfolding(crate::specs::Writing::head_fault, crate::specs::Writing::number_fault))]
fn head_fault(train: Train, stations: u16, line: usize) -> Result<(), Refusal>
    ensures { result ≡ head_fault stations line train }
{
    path_fault(train.origin, train.destination, stations, line)?;
    value_fault(Time::value(u32::from(train.earliest)), line)?;
    value_fault(Time::value(u32::from(train.latest)), line)?;
    number_fault(train.weight, Train::WEIGHT, line)
}

#[tactic(auto, unfolding(crate::specs::Writing::train_fault))]
fn train_fault(train: Train, stations: u16, line: usize) -> Result<(), Refusal>
    requires { stations ≤ 12 }
    ensures { result ≡ train_fault stations line train }
{
    head_fault(train, stations, line)?;
    let legs = legs_between(train.origin, train.destination);
    time_faults(&train.runs[..legs], Train::RUN, line)?;
    time_faults(&train.stops[..legs - 1], Train::STOP, line)
}

// Train, station (3, then 19) and minute of a booking after the one before it.
#[tactic(auto, unfolding(crate::specs::Writing::booking_fault, crate::specs::Writing::number_fault, crate::specs::Bookings::bookable))]
fn booking_fault(
    booking: Booking,
    before: Booking,
    stations: u16,
    trains: &[Train],
    line: usize,
) -> Result<(), Refusal>
    requires { length trains.now ≤ 12 }
    ensures { result ≡ booking_fault stations trains.now before line booking }
{
    value_fault(
        Train::value(u32::from(booking.train), trains.len() as u16),
        line,
    )?;
    value_fault(Station::value(u32::from(booking.station), stations), line)?;
    let booked = trains[usize::from(booking.train) - 1];
    if !may_stand(booked, booking.train, booking.station, before) {
        return Err(Refusal {
            number: 19,
            place: line,
        });
    }
    value_fault(Time::value(u32::from(booking.minute)), line)
}

// Train (3, then 19) and minutes of a line of a list of trains, after the one before it.
#[tactic(auto, unfolding(crate::specs::Writing::listed_fault, crate::specs::Writing::number_fault))]
fn listed_fault(
    x: Listed,
    before: Listed,
    trains: u16,
    limits: Limits,
    line: usize,
) -> Result<(), Refusal>
    ensures { result ≡ listed_fault trains limits before line x }
{
    value_fault(Train::value(u32::from(x.train), trains), line)?;
    if x.train <= before.train {
        return Err(Refusal {
            number: 19,
            place: line,
        });
    }
    number_fault(x.minutes, limits, line)
}

#[tactic(auto, unfolding(crate::specs::Writing::track_fault_of))]
fn track_fault(track: Track) -> Result<(), Refusal>
    ensures { result ≡ track_fault_of track }
{
    number_fault(track.station_count, Station::COUNT, 1)?;
    let n = usize::from(track.station_count);
    lines_fault(&track.tracks[..n], 2, |tracks, line| {
        number_fault(tracks, Station::TRACKS, line)
    })?;
    lines_fault(&track.segments[..n - 1], n + 3, segment_fault)
}

#[tactic(auto, unfolding(crate::specs::Writing::traffic_fault_of))]
fn traffic_fault(traffic: Traffic, stations: u16) -> Result<(), Refusal>
    requires { stations ≤ 12 }
    ensures { result ≡ traffic_fault_of stations traffic }
{
    let n = usize::from(stations);
    number_fault(traffic.train_count, Train::COUNT, n + n + 2)?;
    let trains = &traffic.trains[..usize::from(traffic.train_count)];
    lines_fault(
        trains,
        n + n + 3,
        |train, line| train_fault(train, stations, line),
    )
}

// The bookings, their count on this line.
fn booked_fault(booked: Booked, stations: u16, traffic: Traffic, line: usize) -> Result<(), Refusal>
    requires { (traffic.train_count ≤ 12) × (line ≤ 39) }
    ensures { result ≡ booked_fault stations traffic booked line }
{
    number_fault(booked.booking_count, Booking::COUNT, line)?;
    let trains = &traffic.trains[..usize::from(traffic.train_count)];
    let bookings = &booked.bookings[..usize::from(booked.booking_count)];
    rising_fault(bookings, Booking::NONE, line + 1, |booking, before, line| {
        booking_fault(booking, before, stations, trains, line)
    })
}

// A list of trains, its count on this line.
#[tactic(auto, unfolding(crate::specs::Writing::list_fault))]
fn list_fault(list: TrainList, trains: u16, limits: Limits, line: usize) -> Result<(), Refusal>
    requires { (trains ≤ 12) × (line < 1000) }
    ensures { result ≡ list_fault trains limits list line }
{
    number_fault(list.count, TrainList::counts(trains), line)?;
    let listed = &list.listed[..usize::from(list.count)];
    rising_fault(listed, Listed::NONE, line + 1, |x, before, line| {
        listed_fault(x, before, trains, limits, line)
    })
}

// The first bad field of a record, in the order of the file's bytes.
#[tactic(auto, unfolding(crate::specs::Writing::fault_of, crate::specs::Writing::booked_fault_of))]
pub fn fault_of(line: Line) -> Result<(), Refusal>
    ensures { result ≡ fault_of line }
{
    track_fault(line.track)?;
    let stations = line.track.station_count;
    traffic_fault(line.traffic, stations)?;
    let n = usize::from(stations);
    let bookings_line = n + n + 3 + usize::from(line.traffic.train_count);
    booked_fault(line.booked, stations, line.traffic, bookings_line)?;
    let dues_line = bookings_line + 1 + usize::from(line.booked.booking_count);
    list_fault(line.dues, line.traffic.train_count, Time::LIMITS, dues_line)
}

// What has a line of its own in a line file. `ready` says where it has a text: a train where it has a path.
trait Entry: Copy {
    ghost text: { Self → List ℕ → List ℕ };

    ghost ready: { Self → Type 0 };

    fn put(self, out: &mut Writer<MAX_BYTES>)
        requires { ready self × (length out.old + length (text self []) ≤ 4096) }
        ensures { out.new ≡ out.old ++ text self [] };

    ghost text_then: { (x : Self) (rest : List ℕ) → text x rest ≡ text x [] ++ rest };
}

// The tracks of a station.
impl Entry for u16 {
    ghost text = { station_text };

    ghost ready = { λ _. ⊤ };

    ghost text_then = { station_then };

    fn put(self, out: &mut Writer<MAX_BYTES>) {
        out.field(u32::from(self), LINE_FEED);
    }
}

impl Entry for Segment {
    ghost text = { segment_text };

    ghost ready = { λ _. ⊤ };

    ghost text_then = { segment_then };

    fn put(self, out: &mut Writer<MAX_BYTES>) {
        out.byte(u8::from(self.kind));
        out.byte(SPACE);
        out.field(u32::from(self.following), SPACE);
        out.field(u32::from(self.opposing), LINE_FEED);
    }
}

impl Entry for Train {
    ghost text = { train_text };

    ghost ready = { HasPath };

    ghost text_then = { train_then };

    fn put(self, out: &mut Writer<MAX_BYTES>) {
        put_head(out, self);
        let legs = legs_between(self.origin, self.destination);
        put_journey(out, &self.runs[..legs], &self.stops[..legs - 1]);
    }
}

impl Entry for Booking {
    ghost text = { booking_text };

    ghost ready = { λ _. ⊤ };

    ghost text_then = { booking_then };

    fn put(self, out: &mut Writer<MAX_BYTES>) {
        out.field(u32::from(self.train), SPACE);
        out.field(u32::from(self.station), SPACE);
        out.field(u32::from(self.minute), LINE_FEED);
    }
}

impl Entry for Listed {
    ghost text = { listed_text };

    ghost ready = { λ _. ⊤ };

    ghost text_then = { listed_then };

    fn put(self, out: &mut Writer<MAX_BYTES>) {
        out.field(u32::from(self.train), SPACE);
        out.field(u32::from(self.minutes), LINE_FEED);
    }
}

// The lines of entries in a row.
fn put_each<T: Entry>(out: &mut Writer<MAX_BYTES>, entries: &[T])
    requires { Each T.ready entries.now × (length out.old + length (each_then T.text entries.now []) ≤ 4096) }
    ensures { out.new ≡ out.old ++ each_then T.text entries.now [] }
{
    for x in entries {
        x.put(out);
    }
}

// The numbers before the runs and stops of a train.
fn put_head(out: &mut Writer<MAX_BYTES>, train: Train)
    requires { length out.old + length (head_text train []) ≤ 4096 }
    ensures { out.new ≡ out.old ++ head_text train [] }
{
    out.field(u32::from(train.origin), SPACE);
    out.field(u32::from(train.destination), SPACE);
    out.field(u32::from(train.earliest), SPACE);
    out.field(u32::from(train.latest), SPACE);
    out.field(u32::from(train.weight), SPACE);
}

// The runs and stops of a path: a run before each stop, and the last run.
fn put_journey(out: &mut Writer<MAX_BYTES>, runs: &[u16], stops: &[u16])
    requires { (length runs.now ≡ length stops.now + 1) × (length out.old + length (journey_text stops.now runs.now []) ≤ 4096) }
    ensures { out.new ≡ out.old ++ journey_text stops.now runs.now [] }
{
    for k in 0..stops.len() {
        out.field(u32::from(runs[k]), SPACE);
        out.field(u32::from(stops[k]), SPACE);
    }
    out.field(u32::from(runs[stops.len()]), LINE_FEED);
}

// The section of bookings, left off where it is empty and nothing follows it (`last`).
fn put_booked(out: &mut Writer<MAX_BYTES>, booked: Booked, last: bool)
    requires { (booked.booking_count ≤ 120) × (length out.old + length (pick (unbooked booked && last) [] (booked_text booked [])) ≤ 4096) }
    ensures { out.new ≡ out.old ++ pick (unbooked booked && last) [] (booked_text booked []) }
{
    if booked.booking_count == 0 && last {
        return;
    }
    out.field(u32::from(booked.booking_count), LINE_FEED);
    put_each(out, &booked.bookings[..usize::from(booked.booking_count)]);
}

// The section of a list of trains, left off where it is empty: it is the last.
fn put_list(out: &mut Writer<MAX_BYTES>, list: TrainList)
    requires { (list.count ≤ 12) × (length out.old + length (pick (unlisted list) [] (train_list_text list [])) ≤ 4096) }
    ensures { out.new ≡ out.old ++ pick (unlisted list) [] (train_list_text list []) }
{
    if list.count == 0 {
        return;
    }
    out.field(u32::from(list.count), LINE_FEED);
    put_each(out, &list.listed[..usize::from(list.count)]);
}

// The whole text of a line within the limits.
fn put_line(out: &mut Writer<MAX_BYTES>, line: Line)
    requires { Within line × (out.old ≡ []) }
    ensures { out.new ≡ text_of line }
{
    let n = usize::from(line.track.station_count);
    out.field(u32::from(line.track.station_count), LINE_FEED);
    put_each(out, &line.track.tracks[..n]);
    out.field(u32::from(line.track.station_count - 1), LINE_FEED);
    put_each(out, &line.track.segments[..n - 1]);
    out.field(u32::from(line.traffic.train_count), LINE_FEED);
    put_each(
        out,
        &line.traffic.trains[..usize::from(line.traffic.train_count)],
    );
    put_booked(out, line.booked, line.dues.count == 0);
    put_list(out, line.dues);
}

// Writes the text of a line within the limits into the lent bytes: its length, or 6 and no byte changed.
fn write_text(line: Line, out: &mut [u8]) -> Result<usize, Refusal>
    requires { Within line }
    ensures { Lent (Spelling.text (text_of line)) out.old out.new result }
{
    let mut text = Writer::new();
    put_line(&mut text, line);
    text.lend(out)
}

// Writes the record of a line, in range or not, into the lent bytes: the length of its text, or 3, 4, 19 or 6 and no byte changed.
// Every line within the limits has a text, and reading it gives the same line back.
pub fn write(line: Line, out: &mut [u8]) -> Result<usize, Refusal>
    ensures { Lent (spelling line) out.old out.new result × (Within line → ReadBack line) }
{
    fault_of(line)?;
    write_text(line, out)
}
