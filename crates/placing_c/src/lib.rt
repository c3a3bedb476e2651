// The C call that places into a table which the host keeps. A library exports nothing to C, so this static library hands
// on what `placing` does; include/leastplan_placing.h describes the call.
#![tactic(auto)]

ghost use Rattle.placing.specs.Answers.{PlaceAt, whole};

use placing::Outcome;
use placing_table::Table;
use sheet::Sheet;

#[unsafe(no_mangle)]
pub extern "C" fn leastplan_place_into(
    table: &mut Table,
    sheet: Sheet,
    interval: usize,
    op: usize,
    start: usize,
) -> Outcome
    ensures { PlaceAt sheet interval table.old op start (whole result table.new) }
{
    placing::leastplan_place_into(table, sheet, interval, op, start)
}
