// The bits of a mask: whether it has one, and one after another.
ghost use Rattle.std.specs.Prelude.{◌≡◌, ◌<◌};
ghost use Rattle.orders.specs.Plan.Bits.{in_mask, NextBit};

pub fn has_bit(mask: u16, i: usize) -> bool
    requires { i < 16 }
    ensures { result ≡ in_mask mask i }
{
    (mask >> i) % 2 == 1
}

// The lowest bit of the mask from this one on; 16 where there is none. That is past every train, and the callers stop at the number of trains: an Option would
// want a second test.
pub fn next_bit(mask: u16, from: usize) -> usize
    requires { from < 16 }
    ensures { NextBit mask from result }
{
    let rest = mask >> from;
    if rest == 0 {
        return 16;
    }
    from + u16::trailing_zeros(rest) as usize
}
