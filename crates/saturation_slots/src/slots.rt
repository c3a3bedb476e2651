// The slots (modulo time slots) of the starts that each operation of a type may still take, and how far they reach from
// a slot.
ghost use Rattle.std.specs.Prelude.{◌≡◌, ℕ, ◌+◌, ◌<◌, ◌≤◌, true, false, length};
ghost use Rattle.sizes.specs.Sizes.{most_operations, most_starts, most_intervals};
ghost use Rattle.laws.specs.Entry.{vec};
ghost use Rattle.saturation_slots.specs.Saturation.{slot_at, SlotRow, WithBlock, Slotted, WithSlots, UsedBy, FarRow, Reach, StepOne};

use crate::Case;
use domain::{Domain, Row};
use sizes::{MOST_INTERVALS, MOST_OPERATIONS, MOST_STARTS};

// Whether each slot is one of them: for one operation, for all.
pub type Slots = [bool; MOST_INTERVALS];

pub type SlotRows = [Slots; MOST_OPERATIONS];

// The slot w after slot s.
pub fn slot_at(interval: usize, s: usize, w: usize) -> usize
    requires { (s < interval) × (w < interval) × (interval ≤ most_intervals) }
    ensures { (result ≡ slot_at interval s w) × (result < most_intervals) }
{
    let slot = s + w;
    if slot < interval {
        slot
    } else {
        slot - interval
    }
}

// The slots, with those of a row's starts from a multiple of the interval on, as many as it has slots.
fn add_block(seen: &mut Slots, row: &Row, base: usize, interval: usize)
    requires { (base < most_starts) × (interval ≤ most_intervals) }
    ensures { WithBlock interval base row.now seen.old seen.new }
{
    for s in 0..interval.min(MOST_STARTS - base) {
        seen[s] |= row[base + s];
    }
}

// The slots of a row's starts.
#[tactic(auto, using(crate::specs::SlotLaws::block_more))]
fn slot_row(row: &Row, interval: usize) -> Slots
    requires { (0 < interval) × (interval ≤ most_intervals) }
    ensures { SlotRow interval row.now result }
{
    let mut seen = [false; MOST_INTERVALS];
    for base in (0..MOST_STARTS).step_by(interval) {
        add_block(&mut seen, row, base, interval);
    }
    seen
}

// The slots of the starts of each operation of this type.
pub fn slot_rows(
    d: &Domain,
    resource: &[usize; MOST_OPERATIONS],
    ops: usize,
    interval: usize,
    kind: usize,
) -> SlotRows
    requires { (ops ≤ most_operations) × (0 < interval) × (interval ≤ most_intervals) }
    ensures { Slotted ops interval (vec resource.now) kind d.now result }
{
    let mut z = [[false; MOST_INTERVALS]; MOST_OPERATIONS];
    for i in 0..ops {
        if resource[i] == kind {
            z[i] = slot_row(&d[i], interval);
        }
    }
    z
}

// The slots of one operation more.
fn add_slots(used: &mut Slots, slots: &Slots)
    ensures { WithSlots used.old slots.now used.new }
{
    for (b, flag) in used.iter_mut().enumerate() {
        *flag |= slots[b];
    }
}

// The slots that operations of this type may still use.
pub fn used_slots(z: &SlotRows, case: Case) -> Slots
    ensures { UsedBy case.entry.ops (vec case.entry.resource.now) case.entry.kind z.now result }
{
    let mut used = [false; MOST_INTERVALS];
    for i in 0..case.ops {
        if case.resource[i] == case.kind {
            add_slots(&mut used, &z[i]);
        }
    }
    used
}

// One past the last slot of an operation.
fn far_row(slots: &Slots, interval: usize) -> usize
    requires { interval ≤ most_intervals }
    ensures { FarRow interval slots.now result }
{
    slots[..interval]
        .iter()
        .rposition(|slot| *slot)
        .map_or(0, |last| last + 1)
}

// How far from slot 0 each operation's slots reach.
pub fn reach_zero(z: &SlotRows, case: Case) -> [usize; MOST_OPERATIONS]
    ensures { Reach case.entry.ops case.entry.interval 0 z.now result }
{
    let mut reach = [0usize; MOST_OPERATIONS];
    for i in 0..case.ops {
        reach[i] = far_row(&z[i], case.interval);
    }
    reach
}

// How far from the next slot an operation reaches, where the slot left behind is one of its own (`here`), or not.
fn step_one(here: bool, interval: usize, old: usize) -> usize
    ensures { StepOne here interval old result }
{
    if here {
        interval
    } else {
        old.saturating_sub(1)
    }
}

// How far from the next slot they reach.
pub fn stepped(
    reach: &[usize; MOST_OPERATIONS],
    z: &SlotRows,
    s: usize,
    case: Case,
) -> [usize; MOST_OPERATIONS]
    requires { (s < case.interval) × Reach case.ops case.interval s z.now reach.now }
    ensures { s + 1 < case.entry.interval → Reach case.entry.ops case.entry.interval (s + 1) z.now result }
{
    let mut out = [0usize; MOST_OPERATIONS];
    for i in 0..case.ops {
        out[i] = step_one(z[i][s], case.interval, reach[i]);
    }
    out
}
