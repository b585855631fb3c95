// Fields of a text: the byte at a cursor, a number and the byte after it; and fields written into a buffer.
#![tactic(auto)]

ghost use Rattle.std.specs.Fmt.{decimal};
ghost use Rattle.std.specs.Prelude.{◌≡◌, ◌∷◌, [], ◌+◌, ◌-◌, ◌≤◌, ◌<◌, length, take, ◌++◌, codes, Some};
ghost use Rattle.text.specs.Reading.Bytes.{byte_at, digit_of, past_of};
ghost use Rattle.text.specs.Places.Lines.{Counted};
ghost use Rattle.text.specs.Reading.Numbers.{number_at, field_at};
ghost use Rattle.text.specs.Writing.Digits.{digits, field_text, pair_text};
ghost use Rattle.text.specs.Writing.Splice.{Put};
ghost use Rattle.text.specs.Reading.Limits.{bounded_of};
ghost use Rattle.text.specs.Reading.Parsed.{limited, ranged_at};
ghost use Rattle.text.specs.Reading.Fixed.{text_at, pair_field_at, paired_at};
ghost use Rattle.text.specs.Reading.Told.{told, told_byte, told_ending};
ghost use Rattle.text.specs.Writing.Lend.{Spelling, Lent};

use std::error::Error;
use std::fmt;

pub mod writer;

pub const LINE_FEED: u8 = 10;

pub const SPACE: u8 = 32;

// The reading position, and the line that it stands on, from 1. That there are no more lines than bytes (`Counted`) is asked for and no part of the type, as
// laws of the definitions (`begins_line`) speak of cursors at any place.
#[derive(Clone, Copy)]
pub struct Cursor {
    pub at: usize,
    pub line: usize,
}

// A refusal: its number in the papers, and its place, which is a line of the file or 0. The number is no enum: every theorem on a refusal (`file_refusal`,
// `text_refusal`, `check_refused`) concludes about the number that the papers give it.
#[derive(Clone, Copy, Debug, PartialEq, Eq)]
pub struct Refusal {
    pub number: u8,
    pub place: usize,
}

impl fmt::Display for Refusal {
    ghost output = { λ r. Some (codes "refused " ++ decimal r.number ++ 32 ∷ decimal r.place) };

    fn fmt<W: fmt::Write>(&self, f: &mut fmt::Formatter<W>) -> fmt::Result {
        write!(f, "refused {} {}", self.number, self.place)
    }
}

impl Error for Refusal {}

// The limits of a type, both included.
#[derive(Clone, Copy)]
pub struct Limits {
    pub min: u16,
    pub max: u16,
}

impl Limits {
    // The one value n.
    pub fn only(n: u16) -> Limits
        ensures { result ≡ record { min = n; max = n } }
    {
        Limits { min: n, max: n }
    }

    // The values from 0 to n.
    pub fn up_to(n: u16) -> Limits
        ensures { result ≡ record { min = 0; max = n } }
    {
        Limits { min: 0, max: n }
    }

    // The value n of the type, or none where n is outside the limits.
    #[tactic(auto, unfolding(crate::specs::Reading::Limits::bounded_of))]
    pub fn value(self, n: u32) -> Option<u16>
        ensures { result ≡ bounded_of self.min self.max n }
    {
        if n < u32::from(self.min) || u32::from(self.max) < n {
            return None;
        }
        Some(n as u16)
    }
}

// The numbers with which a field is refused.
#[derive(Clone, Copy)]
pub struct Faults {
    pub form: u8,
    pub range: u8,
}

// What a byte is worth as a decimal digit. With `is_ascii_digit` a number takes 1.3 times as long to read.
#[tactic(auto, unfolding(crate::specs::Reading::Bytes::digit_of))]
fn digit_of(b: Option<u8>) -> Option<u32>
    ensures { result ≡ digit_of (told_byte b) }
{
    let d = u32::from(b?).wrapping_sub(48);
    (d < 10).then_some(d)
}

impl Cursor {
    // The byte here; past the end there is none.
    pub fn byte(self, s: &[u8]) -> Option<u8>
        ensures { told_byte result ≡ byte_at s.now self }
    {
        s.get(self.at).copied()
    }

    // Past the byte b, if it is here; past a line feed it is the next line.
    #[tactic(auto, unfolding(crate::specs::Reading::Bytes::past_of))]
    pub fn past(self, s: &[u8], b: u8) -> Option<Cursor>
        requires { Counted self }
        ensures { result ≡ past_of s.now self b }
    {
        if self.byte(s)? != b {
            return None;
        }
        let line = if b == LINE_FEED {
            self.line + 1
        } else {
            self.line
        };
        Some(Cursor {
            at: self.at + 1,
            line,
        })
    }

    // A number of one to `most` digits, with no leading zero.
    #[tactic(auto, using(crate::specs::Reading::BytesLaws::digit_small, crate::specs::Reading::BytesLaws::digit_inside), unfolding(crate::specs::Reading::Numbers::number_at))]
    fn number_to(self, s: &[u8], most: usize) -> Option<(u32, Cursor)>
        requires { (1 ≤ most) × (most ≤ 7) }
        ensures { result ≡ number_at most s.now self }
    {
        let mut value = digit_of(self.byte(s))?;
        let mut next = Cursor {
            at: self.at + 1,
            ..self
        };
        if value == 0 {
            return Some((0, next));
        }
        for _ in 1..most {
            let Some(d) = digit_of(next.byte(s)) else {
                break;
            };
            value = value * 10 + d;
            next.at += 1;
        }
        Some((value, next))
    }

    // A number of one to four digits.
    pub fn number(self, s: &[u8]) -> Option<(u32, Cursor)>
        ensures { result ≡ number_at 4 s.now self }
    {
        self.number_to(s, 4)
    }

    // A number of one to `most` digits and the byte b after it.
    #[tactic(auto, using(crate::proofs::Places::LinesLaws::number_counted), unfolding(crate::specs::Reading::Numbers::field_at))]
    fn field_to(self, s: &[u8], most: usize, b: u8) -> Option<(u32, Cursor)>
        requires { (1 ≤ most) × (most ≤ 7) × Counted self }
        ensures { result ≡ field_at most s.now self b }
    {
        let (n, after) = self.number_to(s, most)?;
        Some((n, after.past(s, b)?))
    }

    // A number of one to four digits and the byte b after it.
    pub fn number_field(self, s: &[u8], b: u8) -> Option<(u32, Cursor)>
        requires { Counted self }
        ensures { result ≡ field_at 4 s.now self b }
    {
        self.field_to(s, 4, b)
    }

    // A number of one to seven digits and the byte b after it.
    pub fn long_number_field(self, s: &[u8], b: u8) -> Option<(u32, Cursor)>
        requires { Counted self }
        ensures { result ≡ field_at 7 s.now self b }
    {
        self.field_to(s, 7, b)
    }

    // A number of one to four digits within its limits, with the byte b after it: form, byte after, then range. A fault's place is the line on
    // which the field began.
    #[tactic(auto, unfolding(crate::specs::Reading::Parsed::ranged_at))]
    pub fn ranged(
        self,
        s: &[u8],
        b: u8,
        limits: Limits,
        faults: Faults,
    ) -> Result<(u16, Cursor), Refusal>
        requires { Counted self }
        ensures { told result ≡ ranged_at faults.form faults.range limits.min limits.max b s.now self }
    {
        limited(self.number_field(s, b), self.line, limits, faults)
    }

    // A number of exactly two digits and the byte b after it.
    #[tactic(auto, using(crate::specs::Reading::BytesLaws::digit_small, crate::specs::Reading::BytesLaws::digit_inside), unfolding(crate::specs::Reading::Fixed::pair_at, crate::specs::Reading::Fixed::pair_field_at))]
    fn pair_field(self, s: &[u8], b: u8) -> Option<(u32, Cursor)>
        requires { Counted self }
        ensures { result ≡ pair_field_at s.now self b }
    {
        let tens = digit_of(self.byte(s))?;
        let second = Cursor {
            at: self.at + 1,
            ..self
        };
        let units = digit_of(second.byte(s))?;
        let after = Cursor {
            at: self.at + 2,
            ..self
        };
        Some((tens * 10 + units, after.past(s, b)?))
    }

    // A number of exactly two digits within its limits, with the byte b after it; refused as `ranged` is.
    #[tactic(auto, unfolding(crate::specs::Reading::Fixed::paired_at))]
    pub fn paired(
        self,
        s: &[u8],
        b: u8,
        limits: Limits,
        faults: Faults,
    ) -> Result<(u16, Cursor), Refusal>
        requires { Counted self }
        ensures { told result ≡ paired_at faults.form faults.range limits.min limits.max b s.now self }
    {
        limited(self.pair_field(s, b), self.line, limits, faults)
    }

    // Past each byte of a text; refused by the number `form` on the line on which it should begin.
    #[tactic(auto, unfolding(crate::specs::Reading::Fixed::text_at))]
    pub fn past_text(self, s: &[u8], text: &[u8], form: u8) -> Result<Cursor, Refusal>
        requires { Counted self }
        ensures { told_ending result tt ≡ text_at form text.now s.now self }
    {
        let mut cursor = self;
        for b in text {
            let Some(next) = cursor.past(s, *b) else {
                return Err(Refusal {
                    number: form,
                    place: self.line,
                });
            };
            cursor = next;
        }
        Ok(cursor)
    }
}

// A field within its limits, which began on this line: its form and the byte after it were looked at, its range is now.
fn limited(
    field: Option<(u32, Cursor)>,
    line: usize,
    limits: Limits,
    faults: Faults,
) -> Result<(u16, Cursor), Refusal>
    ensures { told result ≡ limited faults.form faults.range limits.min limits.max line field }
{
    let Some((n, next)) = field else {
        return Err(Refusal {
            number: faults.form,
            place: line,
        });
    };
    let Some(v) = limits.value(n) else {
        return Err(Refusal {
            number: faults.range,
            place: line,
        });
    };
    Ok((v, next))
}

// The byte b at position `at`; answers the position after it. It and the four below are the steps of a `Writer`, over its buffer and count: the laws of `Put`
// (specs/Writing/SpliceLaws) speak of bytes and a position.
pub fn put_byte(out: &mut [u8], at: usize, b: u8) -> usize
    requires { at < length out.old }
    ensures { Put out.old out.new at (b ∷ []) result }
{
    out[at] = b;
    at + 1
}

// The digits of n from position `at` on; answers the position after them.
#[tactic(auto, using(crate::specs::Writing::DigitsLaws::digits_one, crate::specs::Writing::DigitsLaws::length_one, crate::specs::Writing::DigitsLaws::length_more))]
pub fn put_number(out: &mut [u8], at: usize, n: u32) -> usize
    requires { (at + length (digits n) ≤ length out.old) × (n < 10000000) }
    ensures { Put out.old out.new at (digits n) result }
{
    if n < 10 {
        return put_byte(out, at, (n % 10) as u8 + 48);
    }
    let next = put_number(out, at, n / 10);
    put_byte(out, next, (n % 10) as u8 + 48)
}

// The digits of n and the byte b after them.
#[tactic(auto, using(crate::specs::Writing::DigitsLaws::length_field))]
pub fn put_field(out: &mut [u8], at: usize, n: u32, b: u8) -> usize
    requires { (at + length (field_text n b) ≤ length out.old) × (n < 10000000) }
    ensures { Put out.old out.new at (field_text n b) result }
{
    let next = put_number(out, at, n);
    put_byte(out, next, b)
}

// Both digits of n, which is below 100.
pub fn put_pair(out: &mut [u8], at: usize, n: u32) -> usize
    requires { at + 2 ≤ length out.old }
    ensures { Put out.old out.new at (pair_text n) result }
{
    let next = put_byte(out, at, (n / 10 % 10) as u8 + 48);
    put_byte(out, next, (n % 10) as u8 + 48)
}

// The bytes of a text from position `at` on; answers the position after them.
pub fn put_text(out: &mut [u8], at: usize, text: &[u8]) -> usize
    requires { at + length text.now ≤ length out.old }
    ensures { Put out.old out.new at text.now result }
{
    let end = at + text.len();
    out[at..end].copy_from_slice(text);
    end
}

// A text, copied into the lent bytes if it fits; refused by 6, and nothing changed, if it does not.
pub fn lend_text(text: &[u8], out: &mut [u8]) -> Result<usize, Refusal>
    ensures { Lent (Spelling.text text.now) out.old out.new result }
{
    if out.len() < text.len() {
        return Err(Refusal {
            number: 6,
            place: 0,
        });
    }
    Ok(put_text(out, 0, text))
}
