// The slots that the starts of each operation are in, for rule 2 of narrowing: rows of slots, how far each operation
// reaches, and which stretches have been looked at.
// An inner layer, a crate of its own for the check's time: its functions ask for counts within the arrays and for slots
// below the interval. Callers: `saturation` and `saturation_trims`, where `TaskOk` and the ghost fields of `Case` give the
// counts, and the slots are gone through from 0.
#![tactic(auto)]

ghost use Rattle.std.specs.Prelude.{◌≤◌};
ghost use Rattle.sizes.specs.Sizes.{most_operations, most_busy, most_intervals};

mod slots;
mod touched;

use sizes::MOST_OPERATIONS;
pub use slots::{SlotRows, Slots, reach_zero, slot_at, slot_rows, stepped, used_slots};
pub use touched::{Touches, forget, touches};

// One type of a task: so many of its operations (`most`), whose types are `resource`, are of the type `kind`, on its
// instances, which stay busy for some slots of the interval.
#[derive(Clone, Copy)]
pub struct Case<'a> {
    pub resource: &'a [usize; MOST_OPERATIONS],
    pub ops: usize,
    pub interval: usize,
    pub instances: usize,
    pub busy: usize,
    pub most: usize,
    pub kind: usize,
    ghost ops_ok: { ops ≤ most_operations },
    ghost interval_max: { interval ≤ most_intervals },
    ghost instances_ok: { instances ≤ most_operations },
    ghost busy_some: { 1 ≤ busy },
    ghost busy_ok: { busy ≤ most_busy },
}
