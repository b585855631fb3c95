// Reads a line file on standard input and prints its best timetable, or `refused n p` with the number and the place. Where the input cannot be read to its
// end nothing is planned, as a part of a file can be a right one. That, and an answer that cannot be written, is told on standard error.
#![tactic(auto)]

ghost use Rattle.std.specs.Prelude.{length};
ghost use Rattle.std.specs.Result.{OnOk};
ghost use Rattle.plan.specs.Reading.{Fits, FrontRead};
ghost use Rattle.plan.specs.Telling.{Told};

use solver::solving::solve;
use std::io;
use std::io::{Read, Write};

// The bytes of standard input to its end, or as many as there is room for.
fn read_input<R: Read>(from: &mut R, file: &mut [u8]) -> io::Result<usize>
    ensures fits { Fits (length file.old) result }
    ensures bytes { FrontRead (R.remaining from.old) (R.remaining from.new) file.new result }
{
    let mut n: usize = 0;
    // What is read comes in parts of any length, so this goes on by them and not by one.
    while n < file.len() {
        let more = from.read(&mut file[n..])?;
        if more == 0 {
            return Ok(n);
        }
        n += more;
    }
    Ok(n)
}

// Plans the file in these bytes, and says whether all of the answer was written. A file longer than the buffer is refused for its length, as one that fills it
// is.
fn plan<W: Write>(to: &mut W, file: &[u8]) -> io::Result<()>
    ensures { OnOk result (Told file.now (W.contents to.old) (W.contents to.new)) }
{
    let mut out = [0u8; 4096];
    match solve(file, &mut out) {
        Ok(length) => to.write_all(&out[..length]),
        Err(refusal) => writeln!(to, "{refusal}"),
    }
}

fn main(rt: HostRuntime) {
    let mut file = [0u8; 65536];
    let Ok(n) = read_input(&mut rt.stdin(), &mut file) else {
        let _ = eprintln!(rt;
            "plan: standard input could not be read to its end; nothing is planned"
        );
        return;
    };
    if plan(&mut rt.stdout(), &file[..n]).is_err() {
        let _ = eprintln!(rt; "plan: the answer could not be written");
    }
}
