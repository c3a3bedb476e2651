// The operations of a type that are down to one slot.
ghost use Rattle.std.specs.Prelude.{◌≡◌, true, false, ℕ, ◌≤◌, ◌<◌};
ghost use Rattle.sizes.specs.Sizes.{most_operations, most_intervals};
ghost use Rattle.laws.specs.Entry.{vec};
ghost use Rattle.seats.specs.Seating.{PinOf, Pins};

use domain::{Domain, Row};
use sizes::{MOST_INTERVALS, MOST_OPERATIONS};

// The only slot of a row's starts where the operation is of the type (`same`), else MOST_INTERVALS.
fn pin_of(same: bool, row: Row, interval: usize) -> usize
    requires { (0 < interval) × (interval ≤ most_intervals) }
    ensures { PinOf same row interval result }
{
    let t = domain::least(row);
    if !same || domain::other_class(row, t, interval) {
        MOST_INTERVALS
    } else {
        t % interval
    }
}

// The only slot of each operation of this type that is down to one, else MOST_INTERVALS.
pub fn pins(
    d: &Domain,
    resource: [usize; MOST_OPERATIONS],
    ops: usize,
    interval: usize,
    kind: usize,
) -> [usize; MOST_OPERATIONS]
    requires { (ops ≤ most_operations) × (0 < interval) × (interval ≤ most_intervals) }
    ensures { Pins ops interval (vec resource) kind d.now result }
{
    let mut pin = [MOST_INTERVALS; MOST_OPERATIONS];
    for i in 0..ops {
        pin[i] = pin_of(resource[i] == kind, d[i], interval);
    }
    pin
}
