// The checking service: reading, rewriting and checking on byte slices and numbers. It sees no solver. Each answer is one number that packs document 01's
// number and its place, or 0 and the length of what was written.
#![tactic(auto)]

ghost use Rattle.std.specs.Prelude.{◌≡◌};
ghost use Rattle.text.specs.Writing.Lend.{Lent};
ghost use Rattle.line.specs.File.{line_file, answered};
ghost use Rattle.service.specs.Packing.{packed, Packs, PacksAnswer, PacksWritten, packed_answer, packed_written};
ghost use Rattle.service.specs.Rewriting.{rewriting, Rewritten};
ghost use Rattle.timetable.specs.Check.{check_of};

use line::reading::read;
use line::writing::write;
use text::Refusal;
use timetable::checking::check;

pub fn pack(number: u8, value: usize) -> u64
    requires { Packs value }
    ensures { result ≡ packed number value }
{
    u64::from(number) * 4294967296 + value as u64
}

pub fn pack_written(written: Result<usize, Refusal>) -> u64
    requires { PacksWritten written }
    ensures { result ≡ packed_written written }
{
    match written {
        Ok(length) => pack(0, length),
        Err(refusal) => pack(refusal.number, refusal.place),
    }
}

// Whatever was accepted packs to 0, as a text of no bytes does.
pub fn pack_answer<T: Copy>(answer: Result<T, Refusal>) -> u64
    requires { PacksAnswer answer }
    ensures { result ≡ packed_answer answer }
{
    pack_written(answer.map(|_| 0))
}

// Reads a line file: 0, or its refusal.
#[unsafe(no_mangle)]
pub extern "C" fn gaugeviolet_read(file: &[u8]) -> u64
    ensures { result ≡ packed_answer (answered (line_file file.now)) }
{
    pack_answer(read(file))
}

fn rewrite(file: &[u8], out: &mut [u8]) -> Result<usize, Refusal>
    ensures { Lent (rewriting file.now) out.old out.new result }
{
    let line = read(file)?;
    write(line, out)
}

// Reads a line file and writes its line out again: the length of its text, or a refusal and no byte changed.
#[unsafe(no_mangle)]
pub extern "C" fn gaugeviolet_rewrite(file: &[u8], out: &mut [u8]) -> u64
    ensures { Rewritten file.now out.old out.new result }
{
    pack_written(rewrite(file, out))
}

// Checks a timetable's text against a line file: 0, or the number and place of its first fault.
#[unsafe(no_mangle)]
pub extern "C" fn gaugeviolet_check(file: &[u8], timetable: &[u8]) -> u64
    ensures { result ≡ packed_answer (check_of file.now timetable.now) }
{
    pack_answer(check(file, timetable))
}
