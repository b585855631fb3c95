// Numbers that look drawn by chance, always the same ones: what they are changes only how long a search takes.
ghost use Rattle.std.specs.Prelude.{◌<◌};

// The number after x of a row of numbers below 65,536.
pub fn drawn(x: usize) -> usize
    ensures { result < 65536 }
{
    let y = (x % 65536 * 1103 + 12345) % 65536;
    let z = y / 64 + 77;
    y * z / 64 % 65536
}

// The number x, or up to three times as much by a row of numbers and a place in it; row 0 changes nothing, and a great number stays as it is.
pub fn varied(x: u32, row: usize, place: usize) -> u32
    ensures { x < 4294967295 → result < 4294967295 }
{
    if row == 0 || x > 100000000 {
        return x;
    }
    let share = drawn(row % 65536 + place % 65536) / 16 % 16;
    let eighths = 8 + share as u32;
    x * eighths / 8
}
