// The score of a conflict by the prices of its ways out: the higher it is, the more the plans cost that settle the conflict, and the fewer they are.
ghost use Rattle.std.specs.Prelude.{◌≤◌};
ghost use Rattle.solver.specs.Selection.Pricing.{CanPriceWays, Scores};

use crate::pricing::way_price;
use plans::day::Day;
use plans::ways::{way_count, way_of};
use rules::conflicts::Conflict;

// The highest score: at most one way out is alive, so the conflict is settled at once.
pub const AT_ONCE: u32 = 4294967295;

// One more than what a price is above the cost, and at most 60,000, so that a product of two fits.
fn rise(cost: u32, price: u32) -> u32
    ensures { (1 ≤ result) × (result ≤ 60000) }
{
    price.saturating_sub(cost).min(59999) + 1
}

// Of the ways priced so far: how many are alive, and the two lowest prices.
#[derive(Clone, Copy)]
pub struct Alive {
    pub ways: u32,
    pub least: u32,
    pub second: u32,
}

// No way is alive: both minima begin above every price.
const NONE_ALIVE: Alive = Alive {
    ways: 0,
    least: 4294967295,
    second: 4294967295,
};

// The score of a conflict by its ways that are alive. One is added, so that it is never 0.
fn score(cost: u32, alive: Alive) -> u32
    ensures { 1 ≤ result }
{
    if alive.ways < 2 {
        return AT_ONCE;
    }
    let product = rise(cost, alive.least) * rise(cost, alive.second);
    product / (alive.ways - 1) + 1
}

// One way more is priced; a dead one has no price.
fn with_price(alive: Alive, price: Option<u32>) -> Alive {
    let Some(price) = price else {
        return alive;
    };
    Alive {
        ways: alive.ways.saturating_add(1),
        least: alive.least.min(price),
        second: alive.second.min(alive.least.max(price)),
    }
}

// The score of a conflict by the prices of its ways.
pub fn score_of(prices: &[Option<u32>], cost: u32) -> u32
    ensures { 1 ≤ result }
{
    let mut alive = NONE_ALIVE;
    for &price in prices {
        alive = with_price(alive, price);
    }
    score(cost, alive)
}

// The score of a conflict by the prices of its ways, which are held no longer than for that; where there is no conflict there are no ways. Of two ways the
// second is not priced where the first is dead. The marks are as before.
pub fn way_score(
    m: &[u16; 352],
    marks: &mut [u16; 368],
    day: &Day,
    cost: u32,
    cut: u32,
    conflict: Option<Conflict>,
) -> u32
    requires { CanPriceWays m.now marks.old day.now cost conflict }
    ensures { Scores marks.old marks.new result }
{
    let mut alive = NONE_ALIVE;
    let n = way_count(conflict);
    let mut w: usize = 0;
    // The number goes on by the step of its way, which a `for` cannot do.
    while w < n {
        let out = way_of(conflict, &day.ds, w);
        if let Some(way) = out.way {
            let price = way_price(m, marks, day, way, cost, cut);
            if price.is_none() && n == 2 {
                return AT_ONCE;
            }
            alive = with_price(alive, price);
        }
        w += out.step;
    }
    score(cost, alive)
}
