// Where a stretch of slots is full, the starts of the other operations in it are taken off.
// An inner layer, a crate of its own for the check's time. Caller: `saturation`, with a type of a task whose numbers are
// within its arrays (the ghost fields of `Case`).
#![tactic(auto)]

ghost use Rattle.std.specs.Prelude.{ℕ, ◌+◌, ◌≤◌, ◌<◌};
ghost use Rattle.sizes.specs.Sizes.{most_intervals};
ghost use Rattle.laws.specs.Entry.{vec};
ghost use Rattle.saturation_slots.specs.Saturation.{WithoutSlot, Trimmed, Drained};

use domain::{Domain, Row};
use saturation_slots::{Case, SlotRows, Slots, slot_at};
use sizes::{MOST_OPERATIONS, MOST_STARTS};

// The row without the starts of one slot.
fn without_slot(row: &mut Row, slot: usize, interval: usize)
    requires { (slot < interval) × (interval ≤ most_intervals) }
    ensures { WithoutSlot slot interval row.old row.new }
{
    for t in (slot..MOST_STARTS).step_by(interval) {
        row[t] = false;
    }
}

// The row without the starts whose slot is less than bar after s; and whether there were any. `slots` tells where they
// are: that some stay is right in any case.
fn trim(row: &mut Row, slots: &Slots, bar: usize, s: usize, interval: usize) -> bool
    requires { (s < interval) × (interval ≤ most_intervals) }
    ensures { Trimmed bar s interval row.old row.new }
{
    let mut cut = false;
    for w in 0..bar.min(interval) {
        let b = slot_at(interval, s, w);
        if slots[b] {
            without_slot(row, b, interval);
            cut = true;
        }
    }
    cut
}

// The domain without the starts that the bars rule out; and whether there were any.
pub fn drained(
    case: Case,
    d: &mut Domain,
    z: &SlotRows,
    bar: &[usize; MOST_OPERATIONS],
    s: usize,
) -> bool
    requires { s < case.interval }
    ensures { Drained case.entry.ops (vec case.entry.resource.now) case.entry.kind s case.entry.interval bar.now d.old d.new }
{
    let mut cut = false;
    for i in 0..case.ops {
        if case.resource[i] == case.kind {
            cut |= trim(&mut d[i], &z[i], bar[i], s, case.interval);
        }
    }
    cut
}
