// Solving a line file: its best timetable, written into lent bytes.
ghost use Rattle.solver.specs.Promise.Solving.{Solving};

use crate::finding::best_timetable;
use line::reading::read;
use text::Refusal;
use timetable::writing::write;

// Solves a line file, whatever its bytes: the length of the best timetable's text, or a refusal and no byte changed.
pub fn solve(file: &[u8], out: &mut [u8]) -> Result<usize, Refusal>
    ensures { Solving file.now out.old out.new result }
{
    let line = read(file)?;
    let Some(best) = best_timetable(line) else {
        return Err(Refusal {
            number: 5,
            place: 0,
        });
    };
    write(line, best.minutes, out)
}
