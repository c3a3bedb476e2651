// Lines, entries and the page, one after the other into a buffer that takes them, as callers see to.
ghost use Rattle.std.specs.Prelude.{◌≡◌, ◌+◌, ◌*◌, ◌≤◌, length};
ghost use Rattle.sizes.specs.Sizes.{most_operations};
ghost use Rattle.laws.specs.Count.{bit};
ghost use Rattle.text.specs.Line.{text_of};
ghost use Rattle.text.specs.Lines.{line_text_of, lines_text};
ghost use Rattle.text.specs.Pasting.{Pasted};
ghost use Rattle.sheet.specs.Questions.{Accepted};
ghost use Rattle.table_script.specs.Script.{script_of, fault_of};
ghost use Rattle.table_command.specs.Prints.{entry_of, entry_lines};
ghost use Rattle.table_command.specs.Widths.{entry_most, table_most, SmallEntry, SmallTable};
ghost use Rattle.table_command.specs.Whole.{Listed};

use crate::steps;
use placing_table::{Placement, Table};
use sheet::Sheet;
use text::{Key, Line};

// A line from `at` on, and the place after it.
pub fn put_line_at(out: &mut [u8], at: usize, line: Line) -> usize
    requires { at + length (text_of line) ≤ length out.old }
    ensures { Pasted at (text_of line) out.old out.new result }
{
    at + text_line::put_line(&mut out[at..], line)
}

// 1 for yes, 0 for no.
fn flag(yes: bool) -> usize
    ensures { result ≡ bit yes }
{
    if yes {
        return 1;
    }
    0
}

// The line of an entry.
fn entry_line(p: Placement) -> Line
    requires { SmallEntry p }
    ensures { text_of result ≡ line_text_of (entry_of p) }
{
    let placed = flag(p.placed);
    text_line::line_of(
        Key::Entry,
        &[placed as i32, p.start as i32, p.instance as i32],
    )
}

// The entries of the first `count` operations from `at` on, and the place after them.
fn put_entries(out: &mut [u8], at: usize, count: usize, table: Table) -> usize
    requires { (count ≤ most_operations) × SmallTable table × (at + entry_most * most_operations ≤ length out.old) }
    ensures { Pasted at (lines_text (entry_lines count table)) out.old out.new result }
{
    let mut place = at;
    for i in 0..count {
        place = put_line_at(out, place, entry_line(table.entries[i]));
    }
    place
}

// All that is printed for an accepted sheet and interval, at the front of `out`, and how many bytes it has.
pub fn put_table(out: &mut [u8], sheet: Sheet, interval: usize, script: &[u8]) -> usize
    requires { Accepted sheet interval × (fault_of (script_of script.now) ≡ 0) × (table_most ≤ length out.old) }
    ensures { Listed sheet interval script.now out.old out.new result }
{
    let run = steps::put_steps(out, sheet, interval, script);
    let table = run.table;
    let end = put_entries(out, run.place, sheet.op_count, table);
    end + page_writer::put_page(&mut out[end..], sheet, interval, table)
}
