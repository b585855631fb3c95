// What a plan costs, in time or not.
ghost use Rattle.plans.specs.Clauses.WayCosts.{CanCost, CostsWay};

use crate::choosing::raised;
use crate::tally::NO_CUT;
use crate::ways::Way;
use orders::tables::Tables;

// What the plan with the way's choice, marked already, costs, with its least minutes in q; None exactly where it has none up to the last minute of all. The
// tables are those of the line with every latest waived.
pub fn way_cost(
    q: &mut [u16; 352],
    marks: &[u16; 368],
    t: &Tables,
    ds: &[u16; 176],
    way: Way,
    cost: u32,
) -> Option<u32>
    requires { CanCost q.old marks.now t.now ds.now way cost }
    ensures { CostsWay q.old marks.now t.now ds.now way cost q.new result }
{
    raised(q, marks, t, ds, way, cost, NO_CUT)
}
