// The reader of the line file: the lent bytes and a position in them. Its functions are few and thin: `open` makes the reader, `moved` and `past` hand it back
// further on, and the other two take it apart for `track_from` and `complete_from`, which do the work.
ghost use Rattle.std.specs.Prelude.{◌≡◌};
ghost use Rattle.text.specs.Reading.Told.{told};
ghost use Rattle.line.specs.File.{answered};
ghost use Rattle.line.specs.Parts.{track_from, end_of, CanComplete, completed_from};

use crate::reading::{complete_from, track_from};
use crate::{Line, Track};
use text::{Cursor, Refusal};

#[derive(Clone, Copy)]
pub struct Reader<'a> {
    pub src: &'a [u8],
    pub at: usize,
}

impl<'a> Reader<'a> {
    // At the first byte.
    pub fn open(src: &'a [u8]) -> Reader<'a>
        ensures { (result.src ≡ src.entry) × (result.at ≡ 0) }
    {
        Reader { src, at: 0 }
    }

    // The reader, moved on to a cursor in its bytes.
    pub fn moved(self, to: Cursor) -> Reader<'a>
        ensures { (result.src ≡ self.entry.src) × (result.at ≡ to.at) }
    {
        Reader {
            src: self.src,
            at: to.at,
        }
    }

    // Reads the stations and segments from where the reader stands; with the cursor after them.
    pub fn read_track(self) -> Result<(Track, Cursor), Refusal>
        ensures { told result ≡ track_from self.entry.src.now self.entry.at }
    {
        track_from(self.src, self.at)
    }

    // The reader past this part: at the cursor after a track that was read, and where it stood where the track is refused.
    pub fn past(self, part: &Result<(Track, Cursor), Refusal>) -> Reader<'a>
        ensures { (result.src ≡ self.entry.src) × (result.at ≡ end_of self.entry.at (told part.now)) }
    {
        match part {
            Ok((_, after)) => self.moved(*after),
            Err(_) => self,
        }
    }

    // Completes this part to a line: reads the trains from where the reader stands, or hands the refusal of the track on.
    pub fn complete(self, part: Result<(Track, Cursor), Refusal>) -> Result<Line, Refusal>
        requires { CanComplete self.at (told part) }
        ensures { result ≡ answered (completed_from self.entry.src.now self.entry.at (told part)) }
    {
        complete_from(self.src, self.at, part)
    }
}
