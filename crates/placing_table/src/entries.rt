// Question 10: whether a table is one of a sheet at an interval, entry by entry and for each two of them, by held
// slots. A limited operation with K above L is never placed.
ghost use Rattle.std.specs.Prelude.{ℕ, ◌<◌};
ghost use Rattle.sizes.specs.Sizes.{most_operations};
ghost use Rattle.laws.specs.Says.{Says};
ghost use Rattle.placing_table.specs.Table.{placement_at, EntryAllowed, Apart, Consistent};

use crate::free::untaken;
use crate::{Placement, Table};
use sheet::Sheet;
use sizes::MOST_OPERATIONS;

// Whether an entry is one that operation i can have.
fn entry_allowed(sheet: Sheet, interval: usize, i: usize, p: Placement) -> bool
    ensures { Says (EntryAllowed sheet interval i p) result }
{
    if !p.placed {
        return p.start == 0 && p.instance == 0;
    }
    i < sheet.op_count
        && p.start < sheet.horizon
        && start_rules::holds_allowed(sheet, interval, i, p.start)
        && rules::instance_allowed(sheet, i, p.instance)
}

// Whether every entry of the table is.
fn entries_allowed(sheet: Sheet, interval: usize, table: Table) -> bool
    ensures { Says ((i : ℕ) → EntryAllowed sheet interval i (placement_at table i)) result }
{
    table
        .entries
        .iter()
        .enumerate()
        .all(|(i, p)| entry_allowed(sheet, interval, i, *p))
}

// Whether operation i, where it is placed, shares its instance with no rival in a slot that both hold.
fn apart(sheet: Sheet, interval: usize, table: Table, i: usize) -> bool
    requires { i < most_operations }
    ensures { Says (Apart sheet interval table i) result }
{
    let p = table.entries[i];
    !p.placed || untaken(sheet, interval, table, i, p.start, p.instance)
}

// Whether no two placed rivals share an instance in a slot that both hold.
fn all_apart(sheet: Sheet, interval: usize, table: Table) -> bool
    ensures { Says ((i : ℕ) → Apart sheet interval table i) result }
{
    for i in 0..MOST_OPERATIONS {
        if !apart(sheet, interval, table, i) {
            return false;
        }
    }
    true
}

// Whether the table is one of this sheet at this interval.
pub fn consistent(sheet: Sheet, interval: usize, table: Table) -> bool
    ensures { Says (Consistent sheet interval table) result }
{
    entries_allowed(sheet, interval, table) && all_apart(sheet, interval, table)
}
