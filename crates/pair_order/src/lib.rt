// Slot order in a plan that is given: which operation of a pair of rivals has the smaller slot. A crate of its own for
// the check's time. Caller: `slot_order`, with what `schedule::plan_at` answers.
#![tactic(auto)]

ghost use Rattle.std.specs.Prelude.{◌<◌, ◌≤◌, ◌≡◌};
ghost use Rattle.plan.specs.Answers.{PlanAt};
ghost use Rattle.sizes.specs.Sizes.{most_operations};
ghost use Rattle.pair_order.specs.Pairs.{pair_count};
ghost use Rattle.pair_order.specs.PairLaws.{Between, most_pairs};
ghost use Rattle.pair_order.specs.Answers.{SlotOrderAt, Order, refused};

use plan::PlanAnswer;
use sheet::Sheet;
use sizes::MOST_OPERATIONS;
use std::cmp::Ordering;

// The last operation of a sheet that has as many as it can.
const LAST_OPERATION: usize = MOST_OPERATIONS - 1;

// The slot order, or why there is none; with 5 the first bad closed walk.
#[derive(Clone, Copy)]
pub struct SlotOrder {
    pub answer: usize,
    pub order: usize,
    pub loop_length: usize,
    pub loop_edges: [usize; MOST_OPERATIONS],
}

// A refusal without edges: its number, and 0 for every other number.
fn refusal(answer: usize) -> SlotOrder
    ensures { result ≡ refused answer }
{
    SlotOrder {
        answer,
        order: 0,
        loop_length: 0,
        loop_edges: [0; MOST_OPERATIONS],
    }
}

// The first pair number for j, j × (j − 1) / 2: the pairs among the j operations before it, where each has j − 1 others
// and each pair is counted twice. So it is also the number of all pairs of j operations.
fn first_pair(j: usize) -> usize
    requires { (1 ≤ j) × (j ≤ most_operations) }
    ensures { result ≡ pair_count j }
{
    let others = j - 1;
    j * others / 2
}

// The later operation j of a pair.
fn later_of(pair: usize) -> usize
    requires { pair < most_pairs }
    ensures { Between pair result }
{
    for j in 1..LAST_OPERATION {
        if pair < first_pair(j + 1) {
            return j;
        }
    }
    LAST_OPERATION
}

// 0 for one slot, 1 if the first is smaller, 2 if the second is.
// Kept: leastplan_order of C and the line `order=` have these numbers.
fn order_of(a: usize, b: usize) -> usize
    ensures { Order a b result }
{
    match a.cmp(&b) {
        Ordering::Equal => 0,
        Ordering::Less => 1,
        Ordering::Greater => 2,
    }
}

// The order of the pair's slots in the plan given.
pub fn order_in(sheet: Sheet, interval: usize, pair: usize, plan: PlanAnswer) -> SlotOrder
    requires { PlanAt sheet interval plan }
    ensures { SlotOrderAt sheet interval pair result }
{
    if plan.answer != 0 {
        let loop_edges = plan.loop_edges;
        return SlotOrder {
            answer: plan.answer,
            order: 0,
            loop_length: plan.loop_length,
            loop_edges,
        };
    }
    let pairs = first_pair(sheet.op_count);
    if pairs <= pair {
        return refusal(14);
    }
    let j = later_of(pair);
    let i = pair - first_pair(j);
    if !rules::rivals(sheet, i, j) {
        return refusal(15);
    }
    let starts = plan.starts;
    let a = rules::slot_of(interval, starts[i]);
    let b = rules::slot_of(interval, starts[j]);
    SlotOrder {
        answer: 0,
        order: order_of(a, b),
        loop_length: 0,
        loop_edges: [0; MOST_OPERATIONS],
    }
}
