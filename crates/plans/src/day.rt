// What of a line a search reads, made once from it.
ghost use Rattle.std.specs.Prelude.{◌≡◌};
ghost use Rattle.line.specs.Within.{Within};
ghost use Rattle.rules.specs.Conflict.Conflicts.{layout_of};
ghost use Rattle.rules.specs.Conflict.Directions.{directions_of};
ghost use Rattle.orders.specs.LineTables.Tables.{tables_of};
ghost use Rattle.plans.specs.Clauses.Keys.{key_of};

use crate::ranking::key_of;
use line::Line;
use orders::tables::{Tables, tables_of};
use rules::conflicts::{Layout, layout_of};
use rules::directions::directions_of;

// The tables that raising reads, the directions of the trains, the order of the departures, and what the scan for conflicts looks at.
#[derive(Drop)]
pub struct Day {
    pub tables: Tables,
    pub ds: [u16; 176],
    pub key: [u16; 132],
    pub layout: Layout,
}

impl Day {
    pub fn of(line: Line) -> Day
        requires { Within line }
        ensures { (result.tables ≡ tables_of line) × (result.ds ≡ directions_of line) × (result.key ≡ key_of line) × (result.layout ≡ layout_of line) }
    {
        Day {
            tables: tables_of(line),
            ds: directions_of(line),
            key: key_of(line),
            layout: layout_of(line),
        }
    }
}
