// The line of a railway: its record, the limits of its fields, and its file, read and written.
#![tactic(auto)]

ghost use Rattle.std.specs.Prelude.{◌≡◌, ◌+◌, ◌-◌, ◌<◌};
ghost use Rattle.text.specs.Reading.Limits.{bounded_of};
ghost use Rattle.line.specs.Ranges.{time, station, train_number, list_count};
ghost use Rattle.line.specs.File.{letter_of, told_letter};
ghost use Rattle.line.specs.Spell.{letter_byte};
ghost use Rattle.line.specs.Record.{legs_between};

use text::Limits;

pub mod reader;
pub mod reading;
pub mod writing;

// The longest line file.
pub const MAX_BYTES: usize = 4096;

#[derive(Clone, Copy, Debug, PartialEq, Eq)]
pub enum Kind {
    S,
    F,
    D,
}

// A byte that is not the letter of a kind.
#[derive(Clone, Copy, Debug, PartialEq, Eq)]
pub struct NoKind(pub u8);

impl TryFrom<u8> for Kind {
    type Error = NoKind;

    ghost try_from_gives = { λ b r. told_letter r ≡ letter_of b };

    #[tactic(auto, unfolding(crate::specs::File::letter_of))]
    fn try_from(letter: u8) -> Result<Kind, NoKind> {
        match letter {
            b'S' => Ok(Kind::S),
            b'F' => Ok(Kind::F),
            b'D' => Ok(Kind::D),
            _ => Err(NoKind(letter)),
        }
    }
}

impl From<Kind> for u8 {
    ghost from_gives = { λ k b. b ≡ letter_byte k };

    fn from(kind: Kind) -> u8 {
        match kind {
            Kind::S => b'S',
            Kind::F => b'F',
            Kind::D => b'D',
        }
    }
}

// The track between two stations: its kind, the gap to a following train and to an opposing one.
#[derive(Clone, Copy)]
pub struct Segment {
    pub kind: Kind,
    pub following: u16,
    pub opposing: u16,
}

// A run for each segment of its path, and a stop at each station between two of them, in travel order.
#[derive(Clone, Copy)]
pub struct Train {
    pub origin: u16,
    pub destination: u16,
    pub earliest: u16,
    pub latest: u16,
    pub weight: u16,
    pub runs: [u16; 11],
    pub stops: [u16; 11],
}

// The stations with their tracks, and the segments between them: segment p joins stations p and p + 1.
#[derive(Clone, Copy)]
pub struct Track {
    pub station_count: u16,
    pub tracks: [u16; 12],
    pub segments: [Segment; 11],
}

// The trains.
#[derive(Clone, Copy)]
pub struct Traffic {
    pub train_count: u16,
    pub trains: [Train; 12],
}

// The train does not leave this station of its path before the minute.
#[derive(Clone, Copy)]
pub struct Booking {
    pub train: u16,
    pub station: u16,
    pub minute: u16,
}

// The bookings, in rising order of train and then of station.
#[derive(Clone, Copy)]
pub struct Booked {
    pub booking_count: u16,
    pub bookings: [Booking; 120],
}

// A train of a list of trains, and the minutes listed for it: in the list of dues, its due minute.
#[derive(Clone, Copy)]
pub struct Listed {
    pub train: u16,
    pub minutes: u16,
}

// A list of trains, rising by train.
#[derive(Clone, Copy)]
pub struct TrainList {
    pub count: u16,
    pub listed: [Listed; 12],
}

// Entries beyond a count are 0 (a kind is S) after reading and ignored in writing. The parts are arrays with a count, as the project has no heap.
#[derive(Clone, Copy)]
pub struct Line {
    pub track: Track,
    pub traffic: Traffic,
    pub booked: Booked,
    pub dues: TrainList,
}

// Whole minutes.
#[derive(Clone, Copy)]
pub struct Time {}

impl Time {
    pub const LIMITS: Limits = Limits { min: 0, max: 2879 };

    // Past the last minute: a bound above every minute, from which the least of some is sought, and at which a sum is cut off.
    pub const END: u16 = 2880;

    // Builds the time of minute n, or refuses.
    pub fn value(n: u32) -> Option<u16>
        ensures { result ≡ bounded_of time.min time.max n }
    {
        Time::LIMITS.value(n)
    }
}

// Stations are numbered from 1, and so are trains: each type has its own limits and its own function that builds a value (document 01).
#[derive(Clone, Copy)]
pub struct Station {}

impl Station {
    pub const COUNT: Limits = Limits { min: 2, max: 12 };

    pub const TRACKS: Limits = Limits { min: 1, max: 12 };

    // The numbers of the stations of a line that has `count` of them.
    pub fn numbers(count: u16) -> Limits
        ensures { result ≡ station count }
    {
        Limits { min: 1, max: count }
    }

    // Builds station n of a line that has `count` of them, or refuses.
    pub fn value(n: u32, count: u16) -> Option<u16>
        ensures { result ≡ bounded_of (station count).min (station count).max n }
    {
        Station::numbers(count).value(n)
    }
}

impl Segment {
    // An entry beyond the count.
    pub const NONE: Segment = Segment {
        kind: Kind::S,
        following: 0,
        opposing: 0,
    };

    pub const GAP: Limits = Limits { min: 1, max: 60 };
}

impl Train {
    // An entry beyond the count.
    pub const NONE: Train = Train {
        origin: 0,
        destination: 0,
        earliest: 0,
        latest: 0,
        weight: 0,
        runs: [0; 11],
        stops: [0; 11],
    };

    pub const COUNT: Limits = Limits { min: 0, max: 12 };

    pub const WEIGHT: Limits = Limits { min: 0, max: 99 };

    pub const RUN: Limits = Limits { min: 1, max: 240 };

    pub const STOP: Limits = Limits { min: 0, max: 240 };

    // The numbers of the trains of a line that has `count` of them.
    pub fn numbers(count: u16) -> Limits
        ensures { result ≡ train_number count }
    {
        Limits { min: 1, max: count }
    }

    // Builds the number of train n of a line that has `count` of them, or refuses.
    pub fn value(n: u32, count: u16) -> Option<u16>
        ensures { result ≡ bounded_of (train_number count).min (train_number count).max n }
    {
        Train::numbers(count).value(n)
    }
}

impl Booking {
    // An entry beyond the count, and what stands before the first.
    pub const NONE: Booking = Booking {
        train: 0,
        station: 0,
        minute: 0,
    };

    pub const COUNT: Limits = Limits { min: 0, max: 120 };
}

impl Listed {
    // An entry beyond the count, and what stands before the first.
    pub const NONE: Listed = Listed {
        train: 0,
        minutes: 0,
    };
}

impl TrainList {
    // How many a list of a line with so many trains may have.
    pub fn counts(trains: u16) -> Limits
        ensures { result ≡ list_count trains }
    {
        Limits::up_to(trains)
    }
}

// How many segments lie between two stations.
pub fn legs_between(origin: u16, destination: u16) -> usize
    ensures { result ≡ legs_between origin destination }
{
    usize::from(origin.abs_diff(destination))
}
