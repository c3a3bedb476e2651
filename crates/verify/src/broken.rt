// The rules among the first operations, and the first operation that breaks one.
ghost use Rattle.std.specs.Prelude.{◌≤◌};
ghost use Rattle.sizes.specs.Sizes.{most_operations};
ghost use Rattle.laws.specs.Entry.{vec};
ghost use Rattle.laws.specs.Says.{Says};
ghost use Rattle.sheet.specs.Sheet.{InRange, Interval};
ghost use Rattle.verify.specs.Broken.{PlanUpTo, Breaks};

use crate::{each_operation, edges, pairs};
use sheet::Sheet;
use sizes::MOST_OPERATIONS;

// Whether the starts and instances of the first n operations keep the rules among them. Starts are tested first: those
// that are allowed are low, so that an edge's total can be added.
pub fn kept_up_to(
    sheet: Sheet,
    interval: usize,
    starts: [usize; MOST_OPERATIONS],
    instances: [usize; MOST_OPERATIONS],
    n: usize,
) -> bool
    requires { InRange sheet × Interval sheet interval × (n ≤ most_operations) }
    ensures { Says (PlanUpTo sheet interval (vec starts) (vec instances) n) result }
{
    each_operation::starts_allowed(sheet, interval, starts, n)
        && each_operation::instances_allowed(sheet, instances, n)
        && edges::all_met(sheet_graph::graph_of(sheet), interval, starts, n)
        && pairs::all_apart(sheet, interval, starts, instances, n)
}

// The first operation that breaks a rule, or the count of operations where none does. Entries past the operations play
// no part. All rules are asked at once first: most of what is handed in keeps them.
pub fn first_broken(
    sheet: Sheet,
    interval: usize,
    starts: [usize; MOST_OPERATIONS],
    instances: [usize; MOST_OPERATIONS],
) -> usize
    requires { InRange sheet × Interval sheet interval }
    ensures { Breaks sheet interval (vec starts) (vec instances) result }
{
    let count = sheet.op_count;
    if kept_up_to(sheet, interval, starts, instances, count) {
        return count;
    }
    for i in 0..count {
        let next = i + 1;
        if !kept_up_to(sheet, interval, starts, instances, next) {
            return i;
        }
    }
    count
}
