// The checking service by itself, for C: its three functions under the same names, each one call of the service's. An archive has the functions of its own
// crate alone, and this one has no search in it.
#![tactic(auto)]

ghost use Rattle.std.specs.Prelude.{◌≡◌};
ghost use Rattle.line.specs.File.{line_file, answered};
ghost use Rattle.service.specs.Packing.{packed_answer};
ghost use Rattle.service.specs.Rewriting.{Rewritten};
ghost use Rattle.timetable.specs.Check.{check_of};

// Reads a line file: 0, or its refusal.
#[unsafe(no_mangle)]
pub extern "C" fn gaugeviolet_read(file: &[u8]) -> u64
    ensures { result ≡ packed_answer (answered (line_file file.now)) }
{
    service::gaugeviolet_read(file)
}

// Reads a line file and writes its line out again: the length of its text, or a refusal and no byte changed.
#[unsafe(no_mangle)]
pub extern "C" fn gaugeviolet_rewrite(file: &[u8], out: &mut [u8]) -> u64
    ensures { Rewritten file.now out.old out.new result }
{
    service::gaugeviolet_rewrite(file, out)
}

// Checks a timetable's text against a line file: 0, or the number and place of its first fault.
#[unsafe(no_mangle)]
pub extern "C" fn gaugeviolet_check(file: &[u8], timetable: &[u8]) -> u64
    ensures { result ≡ packed_answer (check_of file.now timetable.now) }
{
    service::gaugeviolet_check(file, timetable)
}
