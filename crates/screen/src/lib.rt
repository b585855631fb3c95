// The functions that the planning screen calls, on byte slices and numbers. Each answer is one number that packs document 01's number and its place,
// or 0 and the length of what was written.
//
// Reading, rewriting and checking are the checking service's. They stand here under the same names since an archive has the functions of its own crate
// alone, and the screen links one archive.
#![tactic(auto)]

ghost use Rattle.std.specs.Prelude.{◌≡◌};
ghost use Rattle.gtfs.specs.Operations.{exporting, importing};
ghost use Rattle.line.specs.File.{line_file, answered};
ghost use Rattle.screen.specs.Solved.{Solved};
ghost use Rattle.screen.specs.Started.{Started};
ghost use Rattle.screen.specs.Walking.{walk_of, walk_length};
ghost use Rattle.service.specs.Packing.{packed_answer, LentPacked};
ghost use Rattle.service.specs.Rewriting.{Rewritten};
ghost use Rattle.timetable.specs.Check.{check_of};

use gtfs::exporting::export;
use gtfs::importing::import_lines;
use line::reading::read;
use service::{pack_answer, pack_written};
use solver::solving::solve;
use starts::filling::starts;
use text::Refusal;
use walk::finding::best_of;

// Reads a line file: 0, or its refusal.
#[unsafe(no_mangle)]
pub extern "C" fn gaugeviolet_read(file: &[u8]) -> u64
    ensures { result ≡ packed_answer (answered (line_file file.now)) }
{
    service::gaugeviolet_read(file)
}

// Reads a line file and writes its line out again: the length of its text, or a refusal and no byte changed.
#[unsafe(no_mangle)]
pub extern "C" fn gaugeviolet_rewrite(file: &[u8], out: &mut [u8]) -> u64
    ensures { Rewritten file.now out.old out.new result }
{
    service::gaugeviolet_rewrite(file, out)
}

// Checks a timetable's text against a line file: 0, or the number and place of its first fault.
#[unsafe(no_mangle)]
pub extern "C" fn gaugeviolet_check(file: &[u8], timetable: &[u8]) -> u64
    ensures { result ≡ packed_answer (check_of file.now timetable.now) }
{
    service::gaugeviolet_check(file, timetable)
}

// Solves a line file: the length of its best timetable's text, written to the front of the lent bytes; or a refusal and no byte changed.
#[unsafe(no_mangle)]
pub extern "C" fn gaugeviolet_solve(file: &[u8], out: &mut [u8]) -> u64
    ensures { Solved file.now out.old out.new result }
{
    pack_written(solve(file, out))
}

// How many plans the walk of a line file takes up.
fn walked(file: &[u8]) -> Result<usize, Refusal>
    ensures { result ≡ walk_of (answered (line_file file.now)) }
{
    let line = read(file)?;
    Ok(best_of(line).steps as usize)
}

// The length of the walk that request K9 describes: how many plans it takes up for a line file, cut off at 4,294,967,295; or the file's refusal.
#[unsafe(no_mangle)]
pub extern "C" fn gaugeviolet_walk_length(file: &[u8]) -> u64
    ensures { result ≡ walk_length file.now }
{
    pack_written(walked(file))
}

// Exports a timetable of a line file as the GTFS file stop_times.txt: the length of its text, written to the front of the lent bytes; or a refusal and no
// byte changed.
#[unsafe(no_mangle)]
pub extern "C" fn gaugeviolet_export(file: &[u8], timetable: &[u8], out: &mut [u8]) -> u64
    ensures { LentPacked (exporting file.now timetable.now) out.old out.new result }
{
    pack_written(export(file, timetable, out))
}

// Imports the GTFS file stop_times.txt for a line file: the length of the train count and train lines of its minutes, written to the front of the lent
// bytes; or a refusal and no byte changed.
#[unsafe(no_mangle)]
pub extern "C" fn gaugeviolet_import(file: &[u8], stop_times: &[u8], out: &mut [u8]) -> u64
    ensures { LentPacked (importing file.now stop_times.now) out.old out.new result }
{
    pack_written(import_lines(file, stop_times, out))
}

// Fills in, for each minute of a list, the total of a line file with the earliest minute of a train replaced by it, or 4,294,967,295 where there is no timetable
// then: 0, or a refusal and no entry changed.
#[unsafe(no_mangle)]
pub extern "C" fn gaugeviolet_starts(
    file: &[u8],
    train: u32,
    minutes: &[u16],
    totals: &mut [u32],
) -> u64
    ensures { Started file.now train minutes.now totals.old totals.new result }
{
    pack_answer(starts(file, train, minutes, totals))
}
