// A line with every latest waived, for raising that is to tell of a plan only whether it has least minutes.
ghost use Rattle.std.specs.Prelude.{◌≡◌};
ghost use Rattle.orders.specs.Waived.WaivedLine.{waived_train, waived};

use line::{Line, Time, Traffic, Train};

// The train with its latest waived: it may arrive up to the last minute of all.
fn waive_latest(train: Train) -> Train
    ensures { result ≡ waived_train train }
{
    Train {
        latest: Time::LIMITS.max,
        ..train
    }
}

// The line with the latest of each train waived.
pub fn waive_latests(line: Line) -> Line
    ensures { result ≡ waived line }
{
    let mut trains = line.traffic.trains;
    for i in 0..12 {
        trains[i] = waive_latest(trains[i]);
    }
    Line {
        traffic: Traffic {
            trains,
            ..line.traffic
        },
        ..line
    }
}
