// What is taken and what is free: the instances that an operation can get at a start, where it holds one for K slots.
ghost use Rattle.std.specs.Prelude.{◌<◌};
ghost use Rattle.sizes.specs.Sizes.{most_operations};
ghost use Rattle.laws.specs.Says.{Says};
ghost use Rattle.placing_table.specs.Table.{Taken, Untaken, Free, VacancyAt};
ghost use Rattle.placing_table.specs.Vacancies.{InRoom};

use crate::Table;
use sheet::Sheet;
use sizes::MOST_OPERATIONS;

// Whether operation j, a placed rival, holds the instance in a slot that operation op would hold at this start.
fn takes(
    sheet: Sheet,
    interval: usize,
    table: Table,
    op: usize,
    start: usize,
    instance: usize,
    j: usize,
) -> bool
    requires { j < most_operations }
    ensures { Says (Taken sheet interval table op start instance j) result }
{
    let p = table.entries[j];
    p.placed
        && p.instance == instance
        && rules::overlap(sheet, interval, op, start, j, p.start)
        && rules::rivals(sheet, op, j)
}

// Whether no rival holds the instance in a slot that operation op would hold at this start.
pub fn untaken(
    sheet: Sheet,
    interval: usize,
    table: Table,
    op: usize,
    start: usize,
    instance: usize,
) -> bool
    ensures { Says (Untaken sheet interval table op start instance) result }
{
    for j in 0..MOST_OPERATIONS {
        if takes(sheet, interval, table, op, start, instance, j) {
            return false;
        }
    }
    true
}

// Whether operation op can get the instance at this start: it may hold one there (K is at most L), and have this one,
// and no rival holds it in a slot that op would hold.
pub fn is_free(
    sheet: Sheet,
    interval: usize,
    table: Table,
    op: usize,
    start: usize,
    instance: usize,
) -> bool
    ensures { Says (Free sheet interval table op start instance) result }
{
    start_rules::holds_allowed(sheet, interval, op, start)
        && rules::instance_allowed(sheet, op, instance)
        && untaken(sheet, interval, table, op, start, instance)
}

// A number above all instances that an operation may have: how many its type has, or 1 of an unlimited type.
fn room(sheet: Sheet, op: usize) -> usize
    ensures { InRoom sheet op result }
{
    operations::instances_of(sheet, op).max(1)
}

// The lowest instance that operation op can get at this start, or none where there is none.
pub fn lowest_free(
    sheet: Sheet,
    interval: usize,
    table: Table,
    op: usize,
    start: usize,
) -> Option<usize>
    ensures { VacancyAt sheet interval table op start result }
{
    let limit = room(sheet, op);
    for u in 0..limit {
        if is_free(sheet, interval, table, op, start, u) {
            return Some(u);
        }
    }
    None
}
