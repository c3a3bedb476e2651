// Rule 1 of narrowing, support: a start goes only where the other operation has no start that keeps both lags with it.
// An inner layer, a crate of its own for the check's time: `spread` asks for an operation of the task.
// Caller: `narrow`, with the lags of a task.
#![tactic(auto)]

ghost use Rattle.std.specs.Prelude.{◌≤◌, ◌<◌};
ghost use Rattle.sizes.specs.Sizes.{most_operations};
ghost use Rattle.domain.specs.Domain.{Keeps};
ghost use Rattle.task.specs.Plan.{LagsKept};

mod rows;

use domain::Domain;
use rows::{next_starts_if, shifted, supported, two_sided};
use sizes::MOST_OPERATIONS;
use task::PAIRS;

// Whether both lags of some pair of operation i ask something. No promise: it only tells whether the next starts are
// wanted.
fn any_two_sided(lag: &[i32; PAIRS], near: &[bool; PAIRS], ops: usize, i: usize) -> bool
    requires { (ops ≤ most_operations) × (i < ops) }
{
    (0..ops).any(|j| {
        let there = i * MOST_OPERATIONS + j;
        let back = j * MOST_OPERATIONS + i;
        near[there] && two_sided(shifted(lag[there]), shifted(lag[back]))
    })
}

// Rule 1 from operation i to each operation near it; which rows changed, without promise. Left free: how many of the
// starts that keep no lag go.
pub fn spread(
    lag: &[i32; PAIRS],
    near: &[bool; PAIRS],
    ops: usize,
    d: &mut Domain,
    i: usize,
) -> [bool; MOST_OPERATIONS]
    requires { (ops ≤ most_operations) × (i < ops) }
    ensures { Keeps (LagsKept ops lag.now) ops d.old d.new }
{
    let next = next_starts_if(any_two_sided(lag, near, ops, i), d[i]);
    let least = domain::least(d[i]);
    let end = domain::end_of(d[i]);
    let mut changed = [false; MOST_OPERATIONS];
    for j in 0..ops {
        let there = i * MOST_OPERATIONS + j;
        let back = j * MOST_OPERATIONS + i;
        if near[there] {
            let after = shifted(lag[there]);
            let before = shifted(lag[back]);
            let row = supported(&next, least, end, d[j], after, before);
            changed[j] = domain::differ(&d[j], &row);
            d[j] = row;
        }
    }
    changed
}
