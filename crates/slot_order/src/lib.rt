// Slot order: which operation of a pair of rivals has the smaller slot in the plan at an interval.
#![tactic(auto)]

ghost use Rattle.pair_order.specs.Answers.{SlotOrderAt};

use pair_order::{SlotOrder, order_in};
use sheet::Sheet;

// The slot order of a pair of operations in the plan at an interval, or why there is none: the plan's refusal (for 5
// with the first bad closed walk), 14, 15.
pub fn slot_order(sheet: Sheet, interval: usize, pair: usize) -> SlotOrder
    ensures { SlotOrderAt sheet interval pair result }
{
    let plan = schedule::plan_at(sheet, interval);
    order_in(sheet, interval, pair, plan)
}
