// The rule about two operations: rivals with the same instance do not overlap.
ghost use Rattle.std.specs.Prelude.{◌≤◌, ◌<◌};
ghost use Rattle.sizes.specs.Sizes.{most_operations};
ghost use Rattle.laws.specs.Entry.{vec};
ghost use Rattle.laws.specs.Says.{Says};
ghost use Rattle.verify.specs.Parts.{Clash, ApartBefore, AllApart};

use sheet::Sheet;
use sizes::MOST_OPERATIONS;

// Whether two operations are rivals with the same instance that overlap.
fn clash(
    sheet: Sheet,
    interval: usize,
    starts: [usize; MOST_OPERATIONS],
    instances: [usize; MOST_OPERATIONS],
    i: usize,
    j: usize,
) -> bool
    requires { (i < most_operations) × (j < most_operations) }
    ensures { Says (Clash sheet interval (vec starts) (vec instances) i j) result }
{
    instances[i] == instances[j]
        && rules::rivals(sheet, i, j)
        && rules::overlap(sheet, interval, i, starts[i], j, starts[j])
}

// Whether operation i clashes with none before it.
fn apart(
    sheet: Sheet,
    interval: usize,
    starts: [usize; MOST_OPERATIONS],
    instances: [usize; MOST_OPERATIONS],
    i: usize,
) -> bool
    requires { i < most_operations }
    ensures { Says (ApartBefore sheet interval (vec starts) (vec instances) i) result }
{
    for j in 0..i {
        if clash(sheet, interval, starts, instances, i, j) {
            return false;
        }
    }
    true
}

// Whether no two of the first n operations clash.
pub fn all_apart(
    sheet: Sheet,
    interval: usize,
    starts: [usize; MOST_OPERATIONS],
    instances: [usize; MOST_OPERATIONS],
    n: usize,
) -> bool
    requires { n ≤ most_operations }
    ensures { Says (AllApart sheet interval (vec starts) (vec instances) n) result }
{
    for i in 0..n {
        if !apart(sheet, interval, starts, instances, i) {
            return false;
        }
    }
    true
}
