// How many operations of a type may use each slot. No promise: it only tells which stretches are worth a count.
ghost use Rattle.std.specs.Prelude.{ℕ, ◌<◌, ◌≤◌};
ghost use Rattle.sizes.specs.Sizes.{most_operations, most_intervals};

use crate::slots::{SlotRows, Slots, slot_at};
use sizes::MOST_INTERVALS;

pub type Touches = [u8; MOST_INTERVALS];

// One operation more, with these slots.
fn add_touches(touch: &mut Touches, slots: &Slots) {
    for (b, count) in touch.iter_mut().enumerate() {
        *count = count.wrapping_add(u8::from(slots[b]));
    }
}

// All operations that have slots.
pub fn touches(z: &SlotRows, ops: usize) -> Touches
    requires { ops ≤ most_operations }
{
    let mut touch = [0u8; MOST_INTERVALS];
    for slots in &z[..ops] {
        add_touches(&mut touch, slots);
    }
    touch
}

// The first `wide` slots from slot s on are not worth a count any more, as the operations outside were cut from them:
// the next time that the rule is tried tells what is left.
pub fn forget(touch: &mut Touches, wide: usize, s: usize, interval: usize)
    requires { (s < interval) × (interval ≤ most_intervals) }
{
    for w in 0..wide.min(interval) {
        touch[slot_at(interval, s, w)] = 0;
    }
}
