// The checking service: a timetable's text against a line file.
ghost use Rattle.std.specs.Prelude.{◌≡◌, map, ◌≤◌, length, take};
ghost use Rattle.line.specs.Within.{Within};
ghost use Rattle.rules.specs.Lists.Orders.{list_count, listed, lists_in};
ghost use Rattle.timetable.specs.Reading.{timetable_file};
ghost use Rattle.timetable.specs.Told.{named, rest_of, timetable_of};
ghost use Rattle.timetable.specs.Check.{same_list, lists_breach, rest_breach, timetable_breach, judged, check_of};

use crate::reading::{Timetable, read_timetable};
use line::Line;
use line::reading::read;
use rules::delay::weighted_delay;
use rules::orders::{OrderList, OrderLists, order_lists, size_of};
use rules::rules::breach_of;
use text::Refusal;

// A list that was read is the right one: the same trains in the same order.
fn same_list(read: &OrderList, right: &OrderList) -> bool
    ensures { result ≡ same_list (named read.now) (listed right.now) }
{
    read.trains[..size_of(*read)] == right.trains[..size_of(*right)]
}

// The lowest list that is not the one of its segment and lane.
fn lists_breach(lists: &[OrderList; 22], own: OrderLists) -> Result<(), Refusal>
    requires { own.count ≤ 22 }
    ensures { result ≡ lists_breach (map named (take own.count lists.now)) (lists_in own) }
{
    for k in 0..own.count {
        if !same_list(&lists[k], &own.at[k]) {
            return Err(Refusal {
                number: 16,
                place: k + 1,
            });
        }
    }
    Ok(())
}

// The part of the check over the order lists and the total.
#[tactic(auto, unfolding(crate::specs::Check::rest_breach))]
fn rest_breach(
    line: Line,
    m: &[u16; 352],
    lists: &[OrderList; 22],
    total: u32,
) -> Result<(), Refusal>
    requires { Within line }
    ensures { result ≡ rest_breach line m.now (rest_of line lists.now total) }
{
    lists_breach(lists, order_lists(line, m))?;
    if total == weighted_delay(line, m) {
        Ok(())
    } else {
        Err(Refusal {
            number: 17,
            place: 0,
        })
    }
}

// A timetable that was read for a line: the rules over the minutes, then the lists and the total.
#[tactic(auto, unfolding(crate::specs::Check::timetable_breach))]
fn judge(line: Line, read: &Timetable) -> Result<(), Refusal>
    requires { Within line }
    ensures { result ≡ timetable_breach line (timetable_of line read.now) }
{
    breach_of(line, &read.minutes)?;
    rest_breach(line, &read.minutes, &read.lists, read.total)
}

// A timetable's text for a line: read whole, then judged.
fn check_line(line: Line, timetable: &[u8]) -> Result<(), Refusal>
    requires { Within line }
    ensures { result ≡ judged line (timetable_file line timetable.now) }
{
    let (read, _) = read_timetable(timetable, line)?;
    judge(line, &read)
}

// Checks a timetable's text against a line file, whatever the bytes: passed, or the number and place of document 01.
#[tactic(auto, using(crate::specs::CheckLoopLaws::file_refused, crate::specs::CheckLoopLaws::file_accepted))]
pub fn check(file: &[u8], timetable: &[u8]) -> Result<(), Refusal>
    ensures { result ≡ check_of file.now timetable.now }
{
    let line = read(file)?;
    check_line(line, timetable)
}
