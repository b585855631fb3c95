// Reading the line file: once through the lent bytes, section by section, field by field. The bytes and the cursor stay two parameters: the theorems over
// `Parsed` speak of a cursor without its text.
ghost use Rattle.std.specs.Prelude.{ℕ, List, ◌≡◌, ◌+◌, ◌-◌, ◌≤◌, ◌<◌, length};
ghost use Rattle.text.specs.Places.Lines.{Counted};
ghost use Rattle.text.specs.Reading.Parsed.{Parsed, map_parsed, lines};
ghost use Rattle.text.specs.Reading.Told.{told};
ghost use Rattle.text.specs.Elements.Padded.{padded};
ghost use Rattle.line.specs.Record.{no_segment, no_train, no_listed, booked_with, list_with};
ghost use Rattle.line.specs.Bookings.{rises, between, stands_after};
ghost use Rattle.text.specs.Sections.Chained.{chained};
ghost use Rattle.line.specs.File.{told_kind, station_line, station_section, kind_at, after_field, segment_line, segment_section, path_at, head_at, train_with, train_line, train_section, booking_line, booking_section, empty_last, listed_line, rising_section, further_at, line_file, answered};
ghost use Rattle.line.specs.Parts.{sections_with, track_from, completed_at, completed_from, CanComplete};
ghost use Rattle.line.specs.Rising.{ReadsOn, TellsPart, section_with};
ghost use Rattle.line.specs.Ranges.{newest};

use crate::reader::Reader;
use crate::{
    Booked, Booking, Kind, Line, Listed, MAX_BYTES, Segment, Station, Time, Track, Traffic, Train,
    TrainList, legs_between,
};
use text::{Cursor, Faults, LINE_FEED, Limits, Refusal, SPACE};

#[derive(Clone, Copy)]
pub struct Path {
    pub origin: u16,
    pub destination: u16,
}

// What stands before the runs and stops on a train's line.
#[derive(Clone, Copy)]
pub struct Head {
    pub origin: u16,
    pub destination: u16,
    pub earliest: u16,
    pub latest: u16,
    pub weight: u16,
}

// A section: its count, and an array, as there is no heap, that begins with what its lines gave.
#[derive(Clone, Copy)]
pub struct Section<T, const N: usize> {
    pub count: u16,
    pub entries: [T; N],
}

// What the sections past the third give.
#[derive(Clone, Copy)]
pub struct FurtherSections {
    pub booked: Booked,
    pub dues: TrainList,
}

// The numbers of a line file's refusals.
const FAULTS: Faults = Faults { form: 2, range: 3 };

// A kind and the space after it.
#[tactic(auto, using(crate::specs::FileLaws::letter_inside, crate::specs::FileLaws::no_letter), unfolding(crate::specs::File::kind_at))]
fn kind_field(s: &[u8], cursor: Cursor) -> Option<(Kind, Cursor)>
    requires { Counted cursor }
    ensures { told_kind cursor.line result ≡ kind_at s.now cursor }
{
    let kind = Kind::try_from(cursor.byte(s)?).ok()?;
    let after = Cursor {
        at: cursor.at + 1,
        line: cursor.line,
    };
    Some((kind, after.past(s, SPACE)?))
}

// The byte after a field with `left` more on its line.
pub fn after_field(left: usize) -> u8
    ensures { result ≡ after_field left }
{
    if left == 0 { LINE_FEED } else { SPACE }
}

// Origin and destination on a train's line.
#[tactic(auto, using(text::proofs::Places::LinesLaws::field_counted), unfolding(crate::specs::File::path_at))]
fn path_fields(s: &[u8], cursor: Cursor, stations: u16) -> Result<(Path, Cursor), Refusal>
    requires { Counted cursor }
    ensures { told result ≡ path_at stations s.now cursor }
{
    let numbers = Station::numbers(stations);
    let (origin, after_origin) = cursor.ranged(s, SPACE, numbers, FAULTS)?;
    let (destination, next) = after_origin.ranged(s, SPACE, numbers, FAULTS)?;
    if destination == origin {
        return Err(Refusal {
            number: 4,
            place: after_origin.line,
        });
    }
    Ok((
        Path {
            origin,
            destination,
        },
        next,
    ))
}

// Origin, destination, earliest, latest and weight on a train's line.
#[tactic(auto, using(text::proofs::Places::LinesLaws::field_counted, crate::specs::PlaceLaws::path_counted), unfolding(crate::specs::File::head_at))]
fn train_head(s: &[u8], cursor: Cursor, stations: u16) -> Result<(Head, Cursor), Refusal>
    requires { Counted cursor }
    ensures { told result ≡ head_at stations s.now cursor }
{
    let (path, after_path) = path_fields(s, cursor, stations)?;
    let (earliest, after_earliest) = after_path.ranged(s, SPACE, Time::LIMITS, FAULTS)?;
    let (latest, after_latest) = after_earliest.ranged(s, SPACE, Time::LIMITS, FAULTS)?;
    let (weight, next) = after_latest.ranged(s, SPACE, Train::WEIGHT, FAULTS)?;
    let head = Head {
        origin: path.origin,
        destination: path.destination,
        earliest,
        latest,
        weight,
    };
    Ok((head, next))
}

// The lines of stations.
#[tactic(auto, using(text::proofs::Places::LinesLaws::field_counted, text::proofs::Elements::LayLaws::lay_step, text::proofs::Elements::LayLaws::lay_done, text::proofs::Elements::LayLaws::lay_stop), unfolding(text::specs::Elements::Padded::padded))]
fn station_lines(s: &[u8], start: Cursor, count: usize) -> Result<([u16; 12], Cursor), Refusal>
    requires { (count ≤ 12) × Counted start }
    ensures { told result ≡ map_parsed (padded 12 0) (lines count station_line s.now start) }
{
    let mut tracks = [0; 12];
    let mut cursor = start;
    for i in 0..count {
        (tracks[i], cursor) = cursor.ranged(s, LINE_FEED, Station::TRACKS, FAULTS)?;
    }
    Ok((tracks, cursor))
}

// 1. Stations: their count and a line each. The first three sections stay three functions of two steps each: one over a closure for the lines would be no shorter.
#[tactic(auto, using(text::proofs::Places::LinesLaws::field_counted, crate::specs::PlaceLaws::number_most, crate::specs::SectionLaws::section_lines), unfolding(crate::specs::File::section_at))]
fn station_section(s: &[u8], start: Cursor) -> Result<(Section<u16, 12>, Cursor), Refusal>
    requires { Counted start }
    ensures { told result ≡ station_section s.now start }
{
    let (count, next) = start.ranged(s, LINE_FEED, Station::COUNT, FAULTS)?;
    let (entries, end) = station_lines(s, next, usize::from(count))?;
    Ok((Section { count, entries }, end))
}

// The lines of segments. The inner loop goes through the gaps of a line, following and opposing; either is left by the label at the first bad field, with
// its refusal (document 01), so the outer loop counts by hand: a `for` has no value.
fn segment_lines(s: &[u8], start: Cursor, count: usize) -> Result<([Segment; 11], Cursor), Refusal>
    requires { (count ≤ 11) × Counted start }
    ensures { told result ≡ map_parsed (padded 11 no_segment) (lines count segment_line s.now start) }
{
    let mut segments = [Segment::NONE; 11];
    let mut cursor = start;
    let mut i = 0;
    'lines: loop {
        if i == count {
            break 'lines Ok((segments, cursor));
        }
        let Some((kind, after_kind)) = kind_field(s, cursor) else {
            break 'lines Err(Refusal {
                number: 2,
                place: cursor.line,
            });
        };
        cursor = after_kind;
        let mut gaps = [0; 2];
        for k in 0..2 {
            match cursor.ranged(s, after_field(1 - k), Segment::GAP, FAULTS) {
                Ok((gap, next)) => {
                    gaps[k] = gap;
                    cursor = next;
                }
                Err(refusal) => break 'lines Err(refusal),
            }
        }
        segments[i] = Segment {
            kind,
            following: gaps[0],
            opposing: gaps[1],
        };
        i += 1;
    }
}

// 2. Segments, of a line with so many stations: their count, which is one less, and a line each.
#[tactic(auto, using(text::proofs::Places::LinesLaws::field_counted, crate::specs::PlaceLaws::number_most, crate::specs::SectionLaws::section_lines), unfolding(crate::specs::File::section_at))]
fn segment_section(
    s: &[u8],
    start: Cursor,
    stations: u16,
) -> Result<(Section<Segment, 11>, Cursor), Refusal>
    requires { (2 ≤ stations) × (stations ≤ 12) × Counted start }
    ensures { told result ≡ segment_section stations s.now start }
{
    let (count, next) = start.ranged(s, LINE_FEED, Limits::only(stations - 1), FAULTS)?;
    let (entries, end) = segment_lines(s, next, usize::from(count))?;
    Ok((Section { count, entries }, end))
}

// The lines of trains. The inner loop goes through the runs and stops of a line; as in `segment_lines`, both are left by the label.
fn train_lines(
    s: &[u8],
    start: Cursor,
    count: usize,
    stations: u16,
) -> Result<([Train; 12], Cursor), Refusal>
    requires { (count ≤ 12) × (stations ≤ 12) × Counted start }
    ensures { told result ≡ map_parsed (padded 12 no_train) (lines count (train_line stations) s.now start) }
{
    let mut trains = [Train::NONE; 12];
    let mut cursor = start;
    let mut i = 0;
    'lines: loop {
        if i == count {
            break 'lines Ok((trains, cursor));
        }
        let (head, after_head) = match train_head(s, cursor, stations) {
            Ok(part) => part,
            Err(refusal) => break 'lines Err(refusal),
        };
        cursor = after_head;
        let between = legs_between(head.origin, head.destination) - 1;
        let mut runs = [0; 11];
        let mut stops = [0; 11];
        for k in 0..between {
            let (run, after_run) = match cursor.ranged(s, SPACE, Train::RUN, FAULTS) {
                Ok(field) => field,
                Err(refusal) => break 'lines Err(refusal),
            };
            let (stop, after_stop) = match after_run.ranged(s, SPACE, Train::STOP, FAULTS) {
                Ok(field) => field,
                Err(refusal) => break 'lines Err(refusal),
            };
            runs[k] = run;
            stops[k] = stop;
            cursor = after_stop;
        }
        let (last, next) = match cursor.ranged(s, LINE_FEED, Train::RUN, FAULTS) {
            Ok(field) => field,
            Err(refusal) => break 'lines Err(refusal),
        };
        runs[between] = last;
        trains[i] = train_of(head, runs, stops);
        cursor = next;
        i += 1;
    }
}

fn train_of(head: Head, runs: [u16; 11], stops: [u16; 11]) -> Train
    ensures { result ≡ train_with head runs stops }
{
    Train {
        origin: head.origin,
        destination: head.destination,
        earliest: head.earliest,
        latest: head.latest,
        weight: head.weight,
        runs,
        stops,
    }
}

// 3. Trains, of a line with so many stations: their count and a line each.
#[tactic(auto, using(text::proofs::Places::LinesLaws::field_counted, crate::specs::PlaceLaws::number_most, crate::specs::SectionLaws::section_lines), unfolding(crate::specs::File::section_at))]
fn train_section(
    s: &[u8],
    start: Cursor,
    stations: u16,
) -> Result<(Section<Train, 12>, Cursor), Refusal>
    requires { (stations ≤ 12) × Counted start }
    ensures { told result ≡ train_section stations s.now start }
{
    let (count, next) = start.ranged(s, LINE_FEED, Train::COUNT, FAULTS)?;
    let (entries, end) = train_lines(s, next, usize::from(count), stations)?;
    Ok((Section { count, entries }, end))
}

// Whether a booking of this train at this station comes after the one before it.
fn rises_after(before: Booking, train: u16, station: u16) -> bool
    ensures { result ≡ rises before train station }
{
    before.train < train || (before.train == train && before.station < station)
}

// Whether a station lies between the origin and the destination of a train.
fn lies_between(train: Train, station: u16) -> bool
    ensures { result ≡ between train station }
{
    if train.origin < train.destination {
        train.origin < station && station < train.destination
    } else {
        train.destination < station && station < train.origin
    }
}

// Whether a booking of the train with this number at this station may stand after the one before it.
pub fn may_stand(train: Train, number: u16, station: u16, before: Booking) -> bool
    ensures { result ≡ stands_after before number station train }
{
    rises_after(before, number, station) && lies_between(train, station)
}

// A booking's line, after the booking before it: a train, a station where it may be booked, and the minute.
#[tactic(auto, using(text::proofs::Places::LinesLaws::field_counted, crate::specs::PlaceLaws::number_most, crate::specs::PlaceLaws::number_least), unfolding(crate::specs::File::booking_line, crate::specs::Bookings::bookable))]
fn booking_line(
    s: &[u8],
    cursor: Cursor,
    before: Booking,
    stations: u16,
    trains: &[Train],
) -> Result<(Booking, Cursor), Refusal>
    requires { (length trains.now ≤ 12) × Counted cursor }
    ensures { told result ≡ booking_line stations trains.now before s.now cursor }
{
    let numbers = Train::numbers(trains.len() as u16);
    let (train, after_train) = cursor.ranged(s, SPACE, numbers, FAULTS)?;
    let (station, next) = after_train.ranged(s, SPACE, Station::numbers(stations), FAULTS)?;
    let booked = trains[usize::from(train) - 1];
    if !may_stand(booked, train, station, before) {
        return Err(Refusal {
            number: 19,
            place: after_train.line,
        });
    }
    let (minute, end) = next.ranged(s, LINE_FEED, Time::LIMITS, FAULTS)?;
    let booking = Booking {
        train,
        station,
        minute,
    };
    Ok((booking, end))
}

// A line of a list of trains, after the one before it: the train, and its minutes within the limits.
#[tactic(auto, using(text::proofs::Places::LinesLaws::field_counted), unfolding(crate::specs::File::listed_line))]
fn listed_line(
    s: &[u8],
    cursor: Cursor,
    before: Listed,
    trains: u16,
    limits: Limits,
) -> Result<(Listed, Cursor), Refusal>
    requires { Counted cursor }
    ensures { told result ≡ listed_line trains limits before s.now cursor }
{
    let (train, after_train) = cursor.ranged(s, SPACE, Train::numbers(trains), FAULTS)?;
    if train <= before.train {
        return Err(Refusal {
            number: 19,
            place: cursor.line,
        });
    }
    let (minutes, next) = after_train.ranged(s, LINE_FEED, limits, FAULTS)?;
    Ok((Listed { train, minutes }, next))
}

// The lines of a section in rising order: each is read after the one before it, and the first after `none`.
fn rising_lines<T: Copy, const N: usize, F: Fn(Cursor, T) -> Result<(T, Cursor), Refusal>>(
    start: Cursor,
    count: usize,
    none: T,
    line: F,
) -> Result<([T; N], Cursor), Refusal>
    requires { (count ≤ N) × Counted start × ReadsOn (F.pre line) (F.post line) }
    ensures { (s : List ℕ) (part : T → List ℕ → Cursor → Parsed T) → TellsPart (F.post line) part s → told result ≡ map_parsed (padded N none) (chained (λ a b. b) part count none s start) }
{
    let mut before = none;
    let mut entries = [none; N];
    let mut cursor = start;
    for i in 0..count {
        (before, cursor) = line(cursor, before)?;
        entries[i] = before;
    }
    Ok((entries, cursor))
}

// Whether a section with this count, which ended here, is empty and the last: "the last one written is never empty".
fn empty_last(s: &[u8], count: u16, next: Cursor) -> bool
    ensures { result ≡ empty_last count s.now next }
{
    count == 0 && s.len() <= next.at
}

// A section in rising order, which may be left off: its count, in these limits, and a line each.
#[tactic(auto, using(text::proofs::Places::LinesLaws::field_counted, crate::specs::PlaceLaws::number_most))]
fn rising_section<T: Copy, const N: usize, F: Fn(Cursor, T) -> Result<(T, Cursor), Refusal>>(
    s: &[u8],
    start: Cursor,
    counts: Limits,
    none: T,
    line: F,
) -> Result<(Section<T, N>, Cursor), Refusal>
    requires { (counts.max ≤ N) × Counted start × ReadsOn (F.pre line) (F.post line) }
    ensures { (part : T → List ℕ → Cursor → Parsed T) → TellsPart (F.post line) part s.now → told result ≡ map_parsed (section_with N none) (rising_section counts none part s.now start) }
{
    if s.len() <= start.at {
        let entries = [none; N];
        return Ok((Section { count: 0, entries }, start));
    }
    let (count, next) = start.ranged(s, LINE_FEED, counts, FAULTS)?;
    if empty_last(s, count, next) {
        return Err(Refusal {
            number: 3,
            place: start.line,
        });
    }
    let (entries, end) = rising_lines(next, usize::from(count), none, line)?;
    Ok((Section { count, entries }, end))
}

// 4. Bookings, of these trains.
fn booking_section(
    s: &[u8],
    start: Cursor,
    stations: u16,
    trains: &[Train],
) -> Result<(Booked, Cursor), Refusal>
    requires { (length trains.now ≤ 12) × Counted start }
    ensures { told result ≡ map_parsed booked_with (booking_section stations trains.now s.now start) }
{
    let (section, end) = rising_section(
        s,
        start,
        Booking::COUNT,
        Booking::NONE,
        |cursor, before| { booking_line(s, cursor, before, stations, trains) },
    )?;
    let booking_count = section.count;
    let bookings = section.entries;
    Ok((
        Booked {
            booking_count,
            bookings,
        },
        end,
    ))
}

// A list of trains, whose count and minutes are in these limits.
fn list_section(
    s: &[u8],
    start: Cursor,
    counts: Limits,
    trains: u16,
    limits: Limits,
) -> Result<(TrainList, Cursor), Refusal>
    requires { (counts.max ≤ 12) × Counted start }
    ensures { told result ≡ map_parsed list_with (rising_section counts no_listed (listed_line trains limits) s.now start) }
{
    let (section, end) = rising_section(s, start, counts, Listed::NONE, |cursor, before| {
        listed_line(s, cursor, before, trains, limits)
    })?;
    let count = section.count;
    let listed = section.entries;
    Ok((TrainList { count, listed }, end))
}

// In the file the count of the newest section, which can only be the last, is from 1.
fn newest_counts(limits: Limits) -> Limits
    ensures { result ≡ newest limits }
{
    Limits {
        min: 1,
        max: limits.max,
    }
}

// The sections past the third: bookings, and 5. dues. They are read by a function of their own: laid into the reading of a file they were copied more often, and
// reading a short file took a third longer.
#[tactic(auto, using(crate::specs::SectionLaws::further_no_bookings))]
#[inline(never)]
fn further_sections(
    s: &[u8],
    start: Cursor,
    stations: u16,
    traffic: &Traffic,
) -> Result<(FurtherSections, Cursor), Refusal>
    requires { (traffic.now.train_count ≤ 12) × Counted start }
    ensures { told result ≡ map_parsed sections_with (further_at stations (record { count = traffic.now.train_count; entries = traffic.now.trains }) s.now start) }
{
    let count = traffic.train_count;
    let trains = &traffic.trains[..usize::from(count)];
    let (booked, after_bookings) = booking_section(s, start, stations, trains)?;
    let counts = newest_counts(TrainList::counts(count));
    let (dues, end) = list_section(s, after_bookings, counts, count, Time::LIMITS)?;
    Ok((FurtherSections { booked, dues }, end))
}

// The stations and segments from a position on, which is on line 1, where the text is not too long; with the cursor after them.
#[tactic(auto, using(crate::specs::PlaceLaws::stations_counted, crate::specs::PartsLaws::track_long, crate::specs::PartsLaws::no_stations, crate::specs::PartsLaws::no_segments, crate::specs::PartsLaws::track_read))]
pub fn track_from(s: &[u8], at: usize) -> Result<(Track, Cursor), Refusal>
    ensures { told result ≡ track_from s.now at }
{
    if MAX_BYTES < s.len() {
        return Err(Refusal {
            number: 1,
            place: 0,
        });
    }
    let (stations, after_stations) = station_section(s, Cursor { at, line: 1 })?;
    let station_count = stations.count;
    let (joins, after_segments) = segment_section(s, after_stations, station_count)?;
    let tracks = stations.entries;
    let segments = joins.entries;
    let track = Track {
        station_count,
        tracks,
        segments,
    };
    Ok((track, after_segments))
}

// This track completed to a line: the trains and the sections past them from a cursor on, and nothing after the last; or the first refusal.
#[tactic(auto, using(crate::specs::PlaceLaws::trains_counted, crate::specs::PartsLaws::no_trains, crate::specs::PartsLaws::no_further, crate::specs::PartsLaws::bytes_after, crate::specs::PartsLaws::track_completed))]
fn complete_track(s: &[u8], start: Cursor, track: Track) -> Result<Line, Refusal>
    requires { (track.station_count ≤ 12) × Counted start }
    ensures { result ≡ answered (completed_at track s.now start) }
{
    let stations = track.station_count;
    let (section, after_trains) = train_section(s, start, stations)?;
    let trains = section.entries;
    let traffic = Traffic {
        train_count: section.count,
        trains,
    };
    let (further, last) = further_sections(s, after_trains, stations, &traffic)?;
    if last.at < s.len() {
        return Err(Refusal {
            number: 2,
            place: last.line,
        });
    }
    Ok(Line {
        track,
        traffic,
        booked: further.booked,
        dues: further.dues,
    })
}

// This part completed to a line: its track with what follows from a position on; or the refusal of whichever of the two has one.
pub fn complete_from(
    s: &[u8],
    at: usize,
    part: Result<(Track, Cursor), Refusal>,
) -> Result<Line, Refusal>
    requires { CanComplete at (told part) }
    ensures { result ≡ answered (completed_from s.now at (told part)) }
{
    let (track, after) = part?;
    complete_track(s, Cursor { at, ..after }, track)
}

// Reads a line file: its line, or the number and place of its first fault.
pub fn read(file: &[u8]) -> Result<Line, Refusal>
    ensures { result ≡ answered (line_file file.now) }
{
    let start = Reader::open(file);
    let part = start.read_track();
    start.past(&part).complete(part)
}
