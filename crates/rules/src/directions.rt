// Which way each train goes over each segment: a table made once for a line and lent to the scans.
ghost use Rattle.std.specs.Prelude.{◌≡◌, ◌<◌, ◌≤◌};
ghost use Rattle.rules.specs.Conflict.Directions.{direction_between, directions_of, way};

use line::Line;

// 0 where a train between these stations does not go over segment p, 1 outbound, 2 inbound. The theorems of the crates above conclude about these numbers.
fn direction_between(origin: u16, destination: u16, p: u16) -> u16
    requires { p < 11 }
    ensures { result ≡ direction_between origin destination p }
{
    let station = p + 1;
    if origin <= station && station < destination {
        1
    } else if destination <= station && station < origin {
        2
    } else {
        0
    }
}

pub fn directions_of(line: Line) -> [u16; 176]
    requires { line.traffic.train_count ≤ 12 }
    ensures { result ≡ directions_of line }
{
    let mut table = [0; 176];
    for i in 0..usize::from(line.traffic.train_count) {
        let train = line.traffic.trains[i];
        for p in 0..11u16 {
            table[16 * usize::from(p) + i] = direction_between(train.origin, train.destination, p);
        }
    }
    table
}

// The entry of train i on segment p.
pub fn way_on(ds: &[u16; 176], p: usize, i: usize) -> u16
    requires { (p < 11) × (i < 16) }
    ensures { result ≡ way ds.now p i }
{
    ds[16 * p + i]
}
