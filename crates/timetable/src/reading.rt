// Reading the timetable's text for a line: the minutes, then the order lists and the total.
ghost use Rattle.std.specs.Prelude.{◌≡◌, ◌+◌, ◌-◌, ◌≤◌, ◌<◌, replicate};
ghost use Rattle.text.specs.Places.Lines.{Counted};
ghost use Rattle.text.specs.Reading.Parsed.{lines, map_parsed};
ghost use Rattle.text.specs.Reading.Told.{told};
ghost use Rattle.line.specs.Record.{legs_of};
ghost use Rattle.line.specs.Within.{Within};
ghost use Rattle.rules.specs.Statement.Paths.{Routed};
ghost use Rattle.timetable.specs.Reading.{legs_at, trains_at, minutes_at, own_count_at, list_at, rest_at, timetable_file};
ghost use Rattle.timetable.specs.Told.{named, named_first, rest_read, timetable_of};

use line::reading::after_field;
use line::{Line, MAX_BYTES, Time, Train, legs_between};
use rules::orders::{OrderList, list_count, no_list};
use rules::rules::segment_between;
use text::{Cursor, Faults, LINE_FEED, Limits, Refusal, SPACE};

// What was read: the minutes, the order lists, their trains by index, one less than the numbers in the text, and the total.
#[derive(Clone, Copy)]
pub struct Timetable {
    pub minutes: [u16; 352],
    pub lists: [OrderList; 22],
    pub total: u32,
}

// The numbers of a timetable's refusals.
const FAULTS: Faults = Faults { form: 8, range: 9 };

// The line of a train, which is train i: departure and arrival for each leg.
fn train_line(
    s: &[u8],
    start: Cursor,
    train: Train,
    i: usize,
    minutes: [u16; 352],
) -> Result<([u16; 352], Cursor), Refusal>
    requires { Routed train × (i < 12) × Counted start }
    ensures { told result ≡ legs_at (legs_of train) train i 0 minutes s.now start }
{
    let legs = legs_between(train.origin, train.destination);
    let mut at = minutes;
    let mut cursor = start;
    for j in 0..legs {
        let (departure, after_departure) = cursor.ranged(s, SPACE, Time::LIMITS, FAULTS)?;
        let b = after_field(legs - (j + 1));
        let (arrival, next) = after_departure.ranged(s, b, Time::LIMITS, FAULTS)?;
        let p = segment_between(train.origin, train.destination, j);
        at[16 * p + i] = departure;
        at[176 + (16 * p + i)] = arrival;
        cursor = next;
    }
    Ok((at, cursor))
}

// The lines of the trains.
fn train_lines(s: &[u8], start: Cursor, line: Line) -> Result<([u16; 352], Cursor), Refusal>
    requires { Within line × Counted start }
    ensures { told result ≡ trains_at line.traffic.train_count line 0 (replicate 352 0) s.now start }
{
    let mut at = [0u16; 352];
    let mut cursor = start;
    for i in 0..usize::from(line.traffic.train_count) {
        (at, cursor) = train_line(s, cursor, line.traffic.trains[i], i, at)?;
    }
    Ok((at, cursor))
}

// The first part of the text: the count of trains and their lines.
#[tactic(auto, using(crate::specs::ReadingLaws::minutes_no_count, crate::specs::ReadingLaws::minutes_counted))]
fn read_minutes(s: &[u8], start: Cursor, line: Line) -> Result<([u16; 352], Cursor), Refusal>
    requires { Within line × Counted start }
    ensures { told result ≡ minutes_at line s.now start }
{
    let limits = Limits::only(line.traffic.train_count);
    let (_, next) = start.ranged(s, LINE_FEED, limits, FAULTS)?;
    train_lines(s, next, line)
}

// A list's own count, of a line with n trains: a line feed after 0, a space after any other.
#[tactic(auto, unfolding(crate::specs::Reading::own_count_at))]
fn own_count(s: &[u8], cursor: Cursor, n: u16) -> Result<(u16, Cursor), Refusal>
    requires { Counted cursor }
    ensures { told result ≡ own_count_at n s.now cursor }
{
    let Some((count, after)) = cursor.number(s) else {
        return Err(Refusal {
            number: FAULTS.form,
            place: cursor.line,
        });
    };
    let b = if count == 0 { LINE_FEED } else { SPACE };
    let Some(next) = after.past(s, b) else {
        return Err(Refusal {
            number: FAULTS.form,
            place: cursor.line,
        });
    };
    let Some(v) = Limits::up_to(n).value(count) else {
        return Err(Refusal {
            number: FAULTS.range,
            place: cursor.line,
        });
    };
    Ok((v, next))
}

// The line of an order list.
fn list_line(s: &[u8], start: Cursor, n: u16) -> Result<(OrderList, Cursor), Refusal>
    requires { (n ≤ 12) × Counted start }
    ensures { map_parsed named (told result) ≡ list_at n s.now start }
{
    let (own, after_count) = own_count(s, start, n)?;
    let count = usize::from(own);
    let mut trains = [0u16; 12];
    let mut cursor = after_count;
    for k in 0..count {
        let b = after_field(count - (k + 1));
        let (number, next) = cursor.ranged(s, b, Train::numbers(n), FAULTS)?;
        trains[k] = number - 1;
        cursor = next;
    }
    Ok((OrderList { count, trains }, cursor))
}

// The lines of the order lists, of a line with n trains.
fn list_lines(
    s: &[u8],
    start: Cursor,
    n: u16,
    count: usize,
) -> Result<([OrderList; 22], Cursor), Refusal>
    requires { (n ≤ 12) × (count ≤ 22) × Counted start }
    ensures { map_parsed (named_first count) (told result) ≡ lines count (list_at n) s.now start }
{
    let mut lists = [no_list(); 22];
    let mut cursor = start;
    for k in 0..count {
        (lists[k], cursor) = list_line(s, cursor, n)?;
    }
    Ok((lists, cursor))
}

// The second part of the text: the order lists and the total, and nothing after them.
fn read_rest(
    s: &[u8],
    start: Cursor,
    line: Line,
) -> Result<(([OrderList; 22], u32), Cursor), Refusal>
    requires { Within line × Counted start }
    ensures { map_parsed (rest_read line) (told result) ≡ rest_at line s.now start }
{
    let own = list_count(line);
    let (_, next) = start.ranged(s, LINE_FEED, Limits::only(own), FAULTS)?;
    let (lists, after_lists) = list_lines(s, next, line.traffic.train_count, usize::from(own))?;
    let Some((total, end)) = after_lists.long_number_field(s, LINE_FEED) else {
        return Err(Refusal {
            number: FAULTS.form,
            place: after_lists.line,
        });
    };
    if end.at < s.len() {
        return Err(Refusal {
            number: FAULTS.form,
            place: end.line,
        });
    }
    Ok(((lists, total), end))
}

// The whole text: 7 before all, then field by field; with the cursor after it.
pub fn read_timetable(s: &[u8], line: Line) -> Result<(Timetable, Cursor), Refusal>
    requires { Within line }
    ensures { map_parsed (timetable_of line) (told result) ≡ timetable_file line s.now }
{
    if MAX_BYTES < s.len() {
        return Err(Refusal {
            number: 7,
            place: 0,
        });
    }
    let (minutes, next) = read_minutes(s, Cursor { at: 0, line: 1 }, line)?;
    let ((lists, total), end) = read_rest(s, next, line)?;
    Ok((
        Timetable {
            minutes,
            lists,
            total,
        },
        end,
    ))
}
