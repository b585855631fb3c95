// A text that is being written, in a buffer of N bytes.
ghost use Rattle.std.specs.Prelude.{◌≡◌, ◌+◌, ◌≤◌, ◌<◌, List, ℕ, [], ◌∷◌, ◌++◌, length, take};
ghost use Rattle.text.specs.Writing.Digits.{field_text, pair_text};
ghost use Rattle.text.specs.Writing.Lend.{Spelling, Lent};

use crate::{Refusal, lend_text, put_byte, put_field, put_pair, put_text};
use std::marker::Model;

// The bytes written so far stand at the front of the buffer.
#[derive(Drop)]
pub struct Writer<const N: usize> {
    buffer: [u8; N],
    count: usize,
}

impl<const N: usize> Model for Writer<N> {
    ghost Value = { List ℕ };

    ghost view = { λ w. take w.count w.buffer };

    ghost invariant = { λ w. w.count ≤ length w.buffer };
}

impl<const N: usize> Writer<N> {
    pub fn new() -> Writer<N>
        ensures { result ≡ [] }
    {
        Writer {
            buffer: [0; N],
            count: 0,
        }
    }

    pub fn byte(&mut self, b: u8)
        requires { length self.old < N }
        ensures { self.new ≡ self.old ++ b ∷ [] }
    {
        self.count = put_byte(&mut self.buffer, self.count, b);
    }

    // The digits of n and the byte b after them.
    pub fn field(&mut self, n: u32, b: u8)
        requires { (length self.old + length (field_text n b) ≤ N) × (n < 10000000) }
        ensures { self.new ≡ self.old ++ field_text n b }
    {
        self.count = put_field(&mut self.buffer, self.count, n, b);
    }

    // Both digits of n, which is below 100.
    pub fn pair(&mut self, n: u32)
        requires { length self.old + 2 ≤ N }
        ensures { self.new ≡ self.old ++ pair_text n }
    {
        self.count = put_pair(&mut self.buffer, self.count, n);
    }

    pub fn text(&mut self, text: &[u8])
        requires { length self.old + length text.now ≤ N }
        ensures { self.new ≡ self.old ++ text.now }
    {
        self.count = put_text(&mut self.buffer, self.count, text);
    }

    // The text, copied into the lent bytes if it fits; refused by 6, and nothing changed, if it does not.
    pub fn lend(&self, out: &mut [u8]) -> Result<usize, Refusal>
        ensures { Lent (Spelling.text self.now) out.old out.new result }
    {
        lend_text(&self.buffer[..self.count], out)
    }
}
