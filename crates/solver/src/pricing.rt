// What the ways out of a conflict cost.
ghost use Rattle.std.specs.Prelude.{◌≡◌, ◌≤◌, ◌<◌};
ghost use Rattle.solver.specs.Selection.Pricing.{CanPrice, Prices, CanPriceWays, PricesWays, Cheapest};

use crate::drawing::varied;
use plans::choosing::raised;
use plans::day::Day;
use plans::ways::{Way, way_count, way_of, with_bit};
use rules::conflicts::Conflict;

// What the plan with the way's choice costs, or None where it has no minutes within the cut: the way is dead. The marks are as before.
pub fn way_price(
    m: &[u16; 352],
    marks: &mut [u16; 368],
    day: &Day,
    way: Way,
    cost: u32,
    cut: u32,
) -> Option<u32>
    requires { CanPrice m.now marks.old day.now way cost }
    ensures { Prices m.now marks.old day.now way cost cut marks.new result }
{
    let row = way.row;
    let old = marks[row];
    marks[row] = with_bit(old, way.second);
    let mut q = *m;
    let price = raised(&mut q, marks, &day.tables, &day.ds, way, cost, cut);
    marks[row] = old;
    price
}

// The prices of the ways out of the conflict, by number; None also where a number has no way, as none has without a conflict. The marks are as before.
pub fn way_prices(
    m: &[u16; 352],
    marks: &mut [u16; 368],
    day: &Day,
    cost: u32,
    cut: u32,
    conflict: Option<Conflict>,
) -> [Option<u32>; 144]
    requires { CanPriceWays m.now marks.old day.now cost conflict }
    ensures { PricesWays m.now marks.old day.now cost cut conflict marks.new result }
{
    let mut prices = [None; 144];
    let n = way_count(conflict);
    let mut w: usize = 0;
    // The number goes on by the step of its way, which a `for` cannot do.
    while w < n {
        let out = way_of(conflict, &day.ds, w);
        if let Some(way) = out.way {
            prices[w] = way_price(m, marks, day, way, cost, cut);
        }
        w += out.step;
    }
    prices
}

// By what the ways are put in order: a way's price, or by a row of drawn numbers what it is above the cost, varied. The greatest number stays what it is,
// and no other price comes to it.
fn order_key(price: u32, cost: u32, row: usize, k: usize) -> u32
    ensures { (price < 4294967295 → result < 4294967295) × (price ≡ 4294967295 → result ≡ 4294967295) }
{
    if row == 0 || price == u32::MAX || price < cost || price - cost > 100000000 {
        return price;
    }
    varied(price - cost + 40, row, 997 * (k % 144))
}

// The number of the next of the first n ways to try, the cheapest where no row of drawn numbers varies the prices, or None where all are dead.
pub fn cheapest(prices: &[Option<u32>; 144], n: usize, cost: u32, row: usize) -> Option<usize>
    requires { n ≤ 144 }
    ensures { Cheapest prices.now n result }
{
    let mut first = None;
    let mut least: u32 = 0;
    for k in 0..n {
        let Some(price) = prices[k] else {
            continue;
        };
        let key = order_key(price, cost, row, k);
        if first.is_none() || key < least {
            first = Some(k);
            least = key;
        }
    }
    first
}
