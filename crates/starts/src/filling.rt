// The entries of a list of minutes, one after the other, and the operation on a file.
ghost use Rattle.std.specs.Prelude.{◌≡◌, ◌+◌, ◌<◌, length};
ghost use Rattle.line.specs.Starting.{starting};
ghost use Rattle.starts.specs.Asking.{Asked};
ghost use Rattle.starts.specs.Operation.{Filled, Starts};
ghost use Rattle.starts.specs.Knowing.{FromFile};

use crate::asking::may_ask;
use crate::knowing::{entry_of, known_after};
use line::Line;
use line::reading::read;
use solver::finding::best_timetable;
use text::Refusal;

// The line whose train i may depart from a minute on.
fn line_from(line: Line, i: usize, minute: u16) -> Line
    requires { i < 12 }
    ensures { result ≡ starting i minute line }
{
    let mut other = line;
    other.traffic.trains[i].earliest = minute;
    other
}

// Fills in the entries of a list that may be asked for train i.
fn fill(line: Line, i: usize, minutes: &[u16], totals: &mut [u32])
    requires { FromFile line × Asked line.traffic.train_count (i + 1) minutes.now (length totals.old) }
    ensures { Filled line (i + 1) minutes.now totals.old totals.new }
{
    let mut before = line_from(line, i, minutes[0]);
    let mut known = best_timetable(before);
    totals[0] = entry_of(known);
    for k in 1..minutes.len() {
        let next = line_from(line, i, minutes[k]);
        known = known_after(before, next, i, known);
        totals[k] = entry_of(known);
        before = next;
    }
}

// Fills in, for each minute of a list, the total of a line file with the earliest minute of a train replaced by it, or 4,294,967,295 where it has no timetable
// then, whatever the bytes, the number, the list and the entries; or the number and place of documents 01 and 02 and no entry changed.
pub fn starts(file: &[u8], train: u32, minutes: &[u16], totals: &mut [u32]) -> Result<(), Refusal>
    ensures { Starts file.now train minutes.now totals.old totals.new result }
{
    let line = read(file)?;
    if !may_ask(line.traffic.train_count, train, minutes, totals.len()) {
        return Err(Refusal {
            number: 22,
            place: 0,
        });
    }
    fill(line, train as usize - 1, minutes, totals);
    Ok(())
}
