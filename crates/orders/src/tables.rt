// The tables of a line that raising reads, in one array; see specs/LineTables/Tables.antt for its layout.
ghost use Rattle.std.specs.Prelude.{◌≡◌, ◌<◌, eqb};
ghost use Rattle.line.specs.Record.{legs_of};
ghost use Rattle.line.specs.Runnable.{Runnable};
ghost use Rattle.rules.specs.Statement.Paths.{legs, leg_on, Uses, Routed};
ghost use Rattle.rules.specs.Check.Dues.{Dues};
ghost use Rattle.orders.specs.LineTables.Tables.{table_size, shared_in, following_in, opposing_in, run_in, stop_in, next_in, limit_in, weight_in, due_in, rest_in, last_in, next_leg, last_leg, rest_of, stop_after, limit_of, no_leg_value, shares, segment_value, leg_entry, table_entry, tables_of};
ghost use Rattle.orders.specs.Graph.LegsLaws.{Leg};
ghost use Rattle.finite.specs.FillLaws.{Begun};

use line::{Kind, Line, Segment, Train, legs_between};
use rules::bookings::floors_of;
use rules::delay::dues_of;
use rules::directions::directions_of;
use rules::rules::segment_between;

// The size of the list, which specs/LineTables/Tables.antt calls `table_size`.
pub const TABLE_SIZE: usize = 1456;

pub type Tables = [u16; TABLE_SIZE];

// Each table by its name: one function with the number of the table would be no plainer, as the callers then had numbers for names.
pub fn run_at(t: &Tables, e: usize) -> u16
    requires { e < 176 }
    ensures { result ≡ run_in t.now e }
{
    t[48 + e]
}

pub fn stop_at(t: &Tables, e: usize) -> u16
    requires { e < 176 }
    ensures { result ≡ stop_in t.now e }
{
    t[224 + e]
}

pub fn next_at(t: &Tables, e: usize) -> usize
    requires { e < 176 }
    ensures { result ≡ next_in t.now e }
{
    usize::from(t[400 + e])
}

pub fn limit_at(t: &Tables, e: usize) -> u16
    requires { e < 176 }
    ensures { result ≡ limit_in t.now e }
{
    t[576 + e]
}

pub fn weight_at(t: &Tables, e: usize) -> u16
    requires { e < 176 }
    ensures { result ≡ weight_in t.now e }
{
    t[752 + e]
}

pub fn due_at(t: &Tables, e: usize) -> u16
    requires { e < 176 }
    ensures { result ≡ due_in t.now e }
{
    t[928 + e]
}

pub fn rest_at(t: &Tables, e: usize) -> u16
    requires { e < 176 }
    ensures { result ≡ rest_in t.now e }
{
    t[1104 + e]
}

pub fn last_at(t: &Tables, e: usize) -> usize
    requires { e < 176 }
    ensures { result ≡ last_in t.now e }
{
    usize::from(t[1280 + e])
}

pub fn shared_at(t: &Tables, p: usize) -> bool
    requires { p < 11 }
    ensures { result ≡ eqb (shared_in t.now p) 1 }
{
    t[p] == 1
}

pub fn following_at(t: &Tables, p: usize) -> u16
    requires { p < 11 }
    ensures { result ≡ following_in t.now p }
{
    t[16 + p]
}

pub fn opposing_at(t: &Tables, p: usize) -> u16
    requires { p < 11 }
    ensures { result ≡ opposing_in t.now p }
{
    t[32 + p]
}

// The leg of a train on a segment that it uses.
pub fn leg_on(train: Train, p: usize) -> usize
    requires { Routed train × Uses train p }
    ensures { (result ≡ leg_on train p) × (result < legs_of train) }
{
    let o = usize::from(train.origin);
    if train.origin < train.destination {
        p + 1 - o
    } else {
        o - 2 - p
    }
}

// The entry after the one of leg k of a train: that of its next leg, and e itself after the last.
fn next_leg(train: Train, k: usize, e: usize) -> u16
    requires { Routed train × (k < legs_of train) × (e < 176) }
    ensures { result ≡ next_leg e train k }
{
    if k + 1 == legs_between(train.origin, train.destination) {
        return e as u16;
    }
    let p = segment_between(train.origin, train.destination, k + 1);
    let next = 16 * p + e % 16;
    next as u16
}

// The entry of a train's last leg, from that of any.
fn last_leg(train: Train, e: usize) -> u16
    requires { Routed train × (e < 176) }
    ensures { result ≡ last_leg e train }
{
    let legs = legs_between(train.origin, train.destination);
    let p = segment_between(train.origin, train.destination, legs - 1);
    let last = 16 * p + e % 16;
    last as u16
}

// Runs and stops of the last j legs of train i after the first. The line is lent, here and in the three below: by value all of it is copied for each entry.
fn rest_of(line: &Line, i: usize, j: usize) -> u16
    requires { Runnable line.now × (i < line.now.traffic.train_count) × (j < legs line.now i) }
    ensures { result ≡ rest_of line.now i j }
{
    let train = line.traffic.trains[i];
    let legs = legs_between(train.origin, train.destination);
    let mut rest: u16 = 0;
    for k in 0..j {
        rest += train.stops[legs - 2 - k] + train.runs[legs - 1 - k];
    }
    rest
}

// The stop after leg k of train i, none after its last.
fn stop_after(line: &Line, i: usize, k: usize) -> u16
    requires { Runnable line.now × (i < line.now.traffic.train_count) × (k < legs line.now i) }
    ensures { result ≡ stop_after line.now i k }
{
    let train = line.traffic.trains[i];
    if k + 1 == legs_between(train.origin, train.destination) {
        0
    } else {
        train.stops[k]
    }
}

// The latest arrival after leg k of train i from which it still ends in time.
fn limit_of(line: &Line, i: usize, k: usize) -> u16
    requires { Runnable line.now × (i < line.now.traffic.train_count) × (k < legs line.now i) }
    ensures { result ≡ limit_of line.now i k }
{
    let train = line.traffic.trains[i];
    let rest = rest_of(
        line,
        i,
        legs_between(train.origin, train.destination) - 1 - k,
    );
    train.latest.saturating_sub(rest)
}

// Entry e of table n of legs, where it is a leg of a train. The number is that of the layout, where the tables stand one after another (docs/DECISIONS.md).
#[tactic(auto, using(crate::specs::LineTables::TablesLaws::entry_of))]
fn leg_entry(n: usize, line: &Line, dues: &[u16], e: usize) -> u16
    requires { Runnable line.now × Dues line.now dues.now × (n < 8) × (e < 176) × Leg line.now e }
    ensures { result ≡ leg_entry line.now n e }
{
    let i = e % 16;
    let train = line.traffic.trains[i];
    let k = leg_on(train, e / 16);
    let after = legs_between(train.origin, train.destination) - 1 - k;
    match n {
        0 => train.runs[k],
        1 => stop_after(line, i, k),
        2 => next_leg(train, k, e),
        3 => limit_of(line, i, k),
        4 | 5 if after > 0 => 0,
        4 => train.weight,
        5 => dues[i],
        6 => rest_of(line, i, after),
        _ => last_leg(train, e),
    }
}

// Entry e of table n of legs, where it is no train's leg. The number is that of the layout.
#[tactic(auto, unfolding(crate::specs::LineTables::Tables::no_leg_value))]
fn no_leg_entry(n: usize, e: usize) -> u16
    requires { e < 176 }
    ensures { result ≡ no_leg_value n e }
{
    match n {
        2 | 7 => e as u16,
        _ => 0,
    }
}

fn shared(kind: Kind) -> u16
    ensures { result ≡ shares kind }
{
    match kind {
        Kind::S => 0,
        Kind::F | Kind::D => 1,
    }
}

// The entry of a segment in table n of segments. The number is that of the layout.
#[tactic(auto, unfolding(crate::specs::LineTables::Tables::segment_value))]
fn segment_entry(n: usize, segment: Segment) -> u16
    ensures { result ≡ segment_value n segment }
{
    match n {
        1 => segment.following,
        2 => segment.opposing,
        _ => shared(segment.kind),
    }
}

// The tables of segments, entry after entry, with the others yet to make.
fn segment_tables(line: Line) -> Tables
    requires { Runnable line }
    ensures { Begun (table_entry line) table_size 48 result }
{
    let segments = usize::from(line.track.station_count) - 1;
    let mut table = [0u16; TABLE_SIZE];
    for x in 0..48 {
        let p = x % 16;
        table[x] = if p < segments {
            segment_entry(x / 16, line.track.segments[p])
        } else {
            0
        };
    }
    table
}

// The tables of a line that can be run: those of segments, then those of legs, entry after entry.
pub fn tables_of(line: Line) -> Tables
    requires { Runnable line }
    ensures { result ≡ tables_of line }
{
    let ds = directions_of(line);
    let floors = floors_of(line);
    let dues = dues_of(line, &floors);
    let mut table = segment_tables(line);
    for x in 48..TABLE_SIZE {
        let n = (x - 48) / 176;
        let e = (x - 48) % 176;
        table[x] = if ds[e] == 0 {
            no_leg_entry(n, e)
        } else {
            leg_entry(n, &line, &dues, e)
        };
    }
    table
}
