// Whether some minutes are better than the best so far: by weighted delay, and then by the departures, which a table of their entries puts in order.
ghost use Rattle.std.specs.Prelude.{◌≡◌, ◌<◌};
ghost use Rattle.line.specs.Within.{Within};
ghost use Rattle.plans.specs.Theory.Ranking.{ahead_from};
ghost use Rattle.plans.specs.Clauses.Keys.{key_entry, key_of, minute_at, keyed, better_by};

use crate::tally::Tally;
use line::{Line, legs_between};
use rules::rules::segment_between;

// The entry of leg k of train i, or 176 where there is none: an Option would be no plainer, as the test `x < 176` is that of the index too. The line is lent: by
// value all of it is copied for each entry.
fn key_entry(line: &Line, i: usize, k: usize) -> u16
    requires { Within line.now }
    ensures { result ≡ key_entry line.now i k }
{
    if usize::from(line.traffic.train_count) <= i {
        return 176;
    }
    let train = line.traffic.trains[i];
    let legs = legs_between(train.origin, train.destination);
    if legs <= k {
        return 176;
    }
    let p = segment_between(train.origin, train.destination, k);
    let e = 16 * p + i;
    e as u16
}

pub fn key_of(line: Line) -> [u16; 132]
    requires { Within line }
    ensures { result ≡ key_of line }
{
    let mut key = [0u16; 132];
    for e in 0..132 {
        key[e] = key_entry(&line, e / 11, e % 11);
    }
    key
}

// The departure that comes as number e, or 0 where there is none.
#[tactic(auto, unfolding(crate::specs::Clauses::Keys::minute_at))]
fn minute_at(m: &[u16; 352], key: &[u16; 132], e: usize) -> u16
    requires { e < 132 }
    ensures { result ≡ minute_at key.now m.now e }
{
    let x = usize::from(key[e]);
    if x < 176 { m[x] } else { 0 }
}

// Whether the first departure that differs is earlier.
fn earlier(m: &[u16; 352], best: &[u16; 352], key: &[u16; 132]) -> bool
    ensures { result ≡ ahead_from 132 0 (keyed key.now m.now) (keyed key.now best.now) }
{
    for e in 0..132 {
        let x = minute_at(m, key, e);
        let y = minute_at(best, key, e);
        if x != y {
            return x < y;
        }
    }
    false
}

// Whether the minutes m, which cost this, are better than the best so far.
#[tactic(auto, unfolding(crate::specs::Clauses::Keys::better_by))]
pub fn improves(
    m: &[u16; 352],
    best: &[u16; 352],
    key: &[u16; 132],
    cost: u32,
    tally: Tally,
) -> bool
    ensures { result ≡ better_by key.now m.now cost best.now tally }
{
    let Some(delay) = tally.delay else {
        return true;
    };
    if cost != delay {
        return cost < delay;
    }
    earlier(m, best, key)
}
