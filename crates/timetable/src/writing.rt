// Writing the timetable's text, or its train lines alone: the first bad field of the line or the minutes refuses it; else the text goes into the lent
// bytes, if it fits.
ghost use Rattle.std.specs.Prelude.{◌≡◌, [], ◌++◌, map, ◌+◌, ◌≤◌, ◌<◌, leb, length};
ghost use Rattle.text.specs.Elements.EachThen.{each_then};
ghost use Rattle.text.specs.Writing.Lend.{Spelling, Lent};
ghost use Rattle.line.specs.Record.{legs_of};
ghost use Rattle.line.specs.Within.{Within};
ghost use Rattle.rules.specs.Statement.Paths.{Routed, EachTrain};
ghost use Rattle.rules.specs.Statement.Rules.{InDays};
ghost use Rattle.rules.specs.Lists.Orders.{listed};
ghost use Rattle.timetable.specs.Spell.{legs_text, trains_text, minutes_text, list_text, numbers, timetable_text};
ghost use Rattle.timetable.specs.Writing.{times_right, minutes_fault, first_fault, spelling, lines_spelling};

use line::reading::after_field;
use line::writing::fault_of;
use line::{Line, MAX_BYTES, Time, Train, legs_between};
use rules::delay::weighted_delay;
use rules::orders::{OrderList, OrderLists, list_count, order_lists, size_of};
use rules::rules::{arrival_of, departure_of};
use text::writer::Writer;
use text::{LINE_FEED, Refusal, SPACE};

fn is_time(n: u16) -> bool
    ensures { result ≡ leb n 2879 }
{
    Time::value(u32::from(n)).is_some()
}

// Each time of the train, which is train i, is one of the two days.
fn times_right(train: Train, m: &[u16; 352], i: usize) -> bool
    requires { Routed train × (i < 12) }
    ensures { result ≡ times_right train m.now i }
{
    for k in 0..legs_between(train.origin, train.destination) {
        if !is_time(departure_of(train, m, i, k)) || !is_time(arrival_of(train, m, i, k)) {
            return false;
        }
    }
    true
}

// The first train with a time that is too late to write.
fn minutes_fault(line: Line, m: &[u16; 352]) -> Result<(), Refusal>
    requires { Within line }
    ensures { result ≡ minutes_fault line m.now }
{
    for i in 0..usize::from(line.traffic.train_count) {
        if !times_right(line.traffic.trains[i], m, i) {
            return Err(Refusal {
                number: 9,
                place: i + 2,
            });
        }
    }
    Ok(())
}

// The first bad field of the line, or else of its minutes.
#[tactic(auto, unfolding(crate::specs::Writing::first_fault))]
fn first_fault(line: Line, m: &[u16; 352]) -> Result<(), Refusal>
    ensures { result ≡ first_fault line m.now }
{
    fault_of(line)?;
    minutes_fault(line, m)
}

// The line of a train, which is train i: departure and arrival for each leg.
fn put_train(out: &mut Writer<MAX_BYTES>, train: Train, m: &[u16; 352], i: usize)
    requires { Routed train × (i < 12) × (length out.old + length (legs_text (legs_of train) train m.now i 0 []) ≤ 4096) }
    ensures { out.new ≡ out.old ++ legs_text (legs_of train) train m.now i 0 [] }
{
    let legs = legs_between(train.origin, train.destination);
    for j in 0..legs {
        out.field(u32::from(departure_of(train, m, i, j)), SPACE);
        let after_arrival = after_field(legs - (j + 1));
        out.field(u32::from(arrival_of(train, m, i, j)), after_arrival);
    }
}

// The lines of the trains.
fn put_trains(out: &mut Writer<MAX_BYTES>, line: Line, m: &[u16; 352])
    requires { Within line × (length out.old + length (trains_text line.traffic.train_count line m.now 0 []) ≤ 4096) }
    ensures { out.new ≡ out.old ++ trains_text line.traffic.train_count line m.now 0 [] }
{
    for i in 0..usize::from(line.traffic.train_count) {
        put_train(out, line.traffic.trains[i], m, i);
    }
}

// The first part of the text: the train count and the lines of the trains.
#[tactic(auto, unfolding(crate::specs::Spell::minutes_text))]
fn put_minutes(out: &mut Writer<MAX_BYTES>, line: Line, m: &[u16; 352])
    requires { Within line × (length out.old + length (minutes_text line m.now []) ≤ 4096) }
    ensures { out.new ≡ out.old ++ minutes_text line m.now [] }
{
    out.field(u32::from(line.traffic.train_count), LINE_FEED);
    put_trains(out, line, m);
}

// The line of an order list: its count, then the numbers of its trains.
fn put_list(out: &mut Writer<MAX_BYTES>, list: OrderList)
    requires { length out.old + length (list_text (numbers (listed list)) []) ≤ 4096 }
    ensures { out.new ≡ out.old ++ list_text (numbers (listed list)) [] }
{
    let count = size_of(list);
    out.field(count as u32, after_field(count));
    for k in 0..count {
        let number = u32::from(list.trains[k]) + 1;
        out.field(number, after_field(count - (k + 1)));
    }
}

// The lines of the order lists. They cannot be entries of `line::writing`: that trait and their type are of two other crates.
fn put_lists(out: &mut Writer<MAX_BYTES>, lists: &[OrderList])
    requires { length out.old + length (each_then list_text (map numbers (map listed lists.now)) []) ≤ 4096 }
    ensures { out.new ≡ out.old ++ each_then list_text (map numbers (map listed lists.now)) [] }
{
    for list in lists {
        put_list(out, *list);
    }
}

// The whole text.
fn put_timetable(out: &mut Writer<MAX_BYTES>, line: Line, m: &[u16; 352])
    requires { Within line × EachTrain line (InDays line m.now) × (out.old ≡ []) }
    ensures { out.new ≡ timetable_text line m.now }
{
    put_minutes(out, line, m);
    out.field(u32::from(list_count(line)), LINE_FEED);
    let lists = order_lists(line, m);
    put_lists(out, &lists.at[..lists.count]);
    out.field(weighted_delay(line, m), LINE_FEED);
}

// Writes the text of minutes within the two days into the lent bytes: its length, or 6 and no byte changed.
fn write_text(line: Line, minutes: [u16; 352], out: &mut [u8]) -> Result<usize, Refusal>
    requires { Within line × EachTrain line (InDays line minutes) }
    ensures { Lent (Spelling.text (timetable_text line minutes)) out.old out.new result }
{
    let mut text = Writer::new();
    put_timetable(&mut text, line, &minutes);
    text.lend(out)
}

// Writes the text of a line's minutes, in range or not, into the lent bytes: its length, or 3, 4, 19, 9 or 6 and no byte changed.
pub fn write(line: Line, minutes: [u16; 352], out: &mut [u8]) -> Result<usize, Refusal>
    ensures { Lent (spelling line minutes) out.old out.new result }
{
    first_fault(line, &minutes)?;
    write_text(line, minutes, out)
}

// Writes the train count and the train lines of minutes within the two days into the lent bytes: their length, or 6 and no byte changed. With what is put as a
// closure it would be one with `write_text`, and no shorter.
fn write_minutes(line: Line, minutes: [u16; 352], out: &mut [u8]) -> Result<usize, Refusal>
    requires { Within line × EachTrain line (InDays line minutes) }
    ensures { Lent (Spelling.text (minutes_text line minutes [])) out.old out.new result }
{
    let mut text = Writer::new();
    put_minutes(&mut text, line, &minutes);
    text.lend(out)
}

// Writes "the train count and train lines alone" (document 02, K8) of a line's minutes, in range or not, into the lent bytes: their length, or 3, 4, 19, 9
// or 6 and no byte changed.
pub fn write_lines(line: Line, minutes: [u16; 352], out: &mut [u8]) -> Result<usize, Refusal>
    ensures { Lent (lines_spelling line minutes) out.old out.new result }
{
    first_fault(line, &minutes)?;
    write_minutes(line, minutes, out)
}
