// Conflicts, and the scan for the lowest one of some minutes: rule 14 segment by segment, then rule 15 station by station.
ghost use Rattle.std.specs.Prelude.{◌≡◌, ◌-◌};
ghost use Rattle.rules.specs.Conflict.Conflicts.{segment_conflict, station_conflict, layout_of, conflict_in};
ghost use Rattle.rules.specs.Scan.Scanning.{Scans};

use crate::passages::pair_on;
use crate::stations::crowd_on;
use line::{Line, Segment};

// Two trains on a segment of which neither goes first. Numbers less 1.
#[derive(Clone, Copy)]
pub struct SegmentConflict {
    pub segment: usize,
    pub lower: usize,
    pub higher: usize,
}

// One train more than tracks, all standing at one minute: bit i of the mask for train i. Numbers less 1.
#[derive(Clone, Copy)]
pub struct StationConflict {
    pub station: usize,
    pub minute: u16,
    pub trains: u16,
}

#[derive(Clone, Copy)]
pub enum Conflict {
    OnSegment(SegmentConflict),
    AtStation(StationConflict),
}

// What of a line the scan looks at: how many stations and trains there are, the segments, and the tracks of the stations.
#[derive(Clone, Copy)]
pub struct Layout {
    pub stations: usize,
    pub trains: usize,
    pub segments: [Segment; 11],
    pub tracks: [u16; 12],
}

pub fn layout_of(line: Line) -> Layout
    ensures { result ≡ layout_of line }
{
    let segments = line.track.segments;
    let tracks = line.track.tracks;
    Layout {
        stations: usize::from(line.track.station_count),
        trains: usize::from(line.traffic.train_count),
        segments,
        tracks,
    }
}

// The lowest segment with a conflict, and its lowest pair.
fn segment_conflict(layout: Layout, ds: &[u16; 176], m: &[u16; 352]) -> Option<Conflict>
    requires { Scans layout ds.now m.now }
    ensures { result ≡ segment_conflict layout.segments ds.now m.now (layout.stations - 1) layout.trains }
{
    for p in 0..layout.stations - 1 {
        if let Some(found) = pair_on(layout.segments[p], ds, m, p, layout.trains) {
            return Some(found);
        }
    }
    None
}

// The lowest station with a conflict, its earliest minute and the lowest trains there.
pub fn station_conflict(layout: Layout, ds: &[u16; 176], m: &[u16; 352]) -> Option<Conflict>
    requires { Scans layout ds.now m.now }
    ensures { result ≡ station_conflict layout.tracks ds.now m.now layout.stations
        layout.trains }
{
    for s in 1..layout.stations - 1 {
        if let Some(found) = crowd_on(ds, m, s, layout.tracks[s], layout.trains) {
            return Some(found);
        }
    }
    None
}

// The lowest conflict of the minutes of a line within the limits, by its layout and its table of directions.
pub fn lowest_conflict(layout: Layout, ds: &[u16; 176], m: &[u16; 352]) -> Option<Conflict>
    requires { Scans layout ds.now m.now }
    ensures { result ≡ conflict_in layout ds.now m.now }
{
    segment_conflict(layout, ds, m).or_else(|| station_conflict(layout, ds, m))
}
