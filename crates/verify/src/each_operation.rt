// The rules about one operation: its start and its instance.
ghost use Rattle.std.specs.Prelude.{◌≤◌};
ghost use Rattle.sizes.specs.Sizes.{most_operations};
ghost use Rattle.laws.specs.Entry.{vec};
ghost use Rattle.laws.specs.Says.{Says};
ghost use Rattle.sheet.specs.Sheet.{InRange};
ghost use Rattle.plan.specs.Rules.{StartAllowed};
ghost use Rattle.verify.specs.Parts.{EachStart, EachInstance};

use sheet::Sheet;
use sizes::{MOST_OPERATIONS, MOST_STARTS};

// Whether an operation may have a start. Past the row of `allowed_starts` no start is in the horizon.
fn start_allowed(sheet: Sheet, interval: usize, op: usize, t: usize) -> bool
    requires { InRange sheet }
    ensures { Says (StartAllowed sheet interval op t) result }
{
    t < MOST_STARTS && start_rules::allowed_starts(sheet, interval, op)[t]
}

// Whether each of the first n operations may have its start.
pub fn starts_allowed(
    sheet: Sheet,
    interval: usize,
    starts: [usize; MOST_OPERATIONS],
    n: usize,
) -> bool
    requires { InRange sheet × (n ≤ most_operations) }
    ensures { Says (EachStart sheet interval (vec starts) n) result }
{
    (0..n).all(|i| start_allowed(sheet, interval, i, starts[i]))
}

// Whether each of the first n operations may have its instance.
pub fn instances_allowed(sheet: Sheet, instances: [usize; MOST_OPERATIONS], n: usize) -> bool
    requires { n ≤ most_operations }
    ensures { Says (EachInstance sheet (vec instances) n) result }
{
    for i in 0..n {
        if !rules::instance_allowed(sheet, i, instances[i]) {
            return false;
        }
    }
    true
}
