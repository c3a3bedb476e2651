// The page of a plan for the cabinet door: its reservation table (modulo reservation table) as text, 44 characters a
// line. The plan comes from the caller, as starts and instances; its dependences are not judged.
#![tactic(auto)]

ghost use Rattle.std.specs.Prelude.{◌≡◌, ◌≤◌, length};
ghost use Rattle.sizes.specs.Sizes.{most_operations};
ghost use Rattle.text.specs.Line.{refused};
ghost use Rattle.page.specs.Answers.{full_table, PageAt};

use page_writer::LINE_LENGTH;
use placing_table::{NOTHING, Placement, Table};
use sheet::Sheet;
use sizes::{MOST_INTERVALS, MOST_OPERATIONS, MOST_TYPES};
use text::Written;

// Room for any page: for each type a heading and a line for each slot.
pub const ROOM: usize = MOST_TYPES * (MOST_INTERVALS + 1) * LINE_LENGTH;

// The placing table with each operation at its start on its instance.
fn full_table(count: usize, starts: &[usize], instances: &[usize]) -> Table
    requires { (count ≤ most_operations) × (length starts.now ≡ count) × (length instances.now ≡ count) }
    ensures { result ≡ full_table count starts.now instances.now }
{
    let mut entries = [NOTHING; MOST_OPERATIONS];
    // Kept: three rows are read and written at one index; zipped iterators are no plainer.
    for i in 0..count {
        entries[i] = Placement {
            placed: true,
            start: starts[i],
            instance: instances[i],
        };
    }
    Table { entries }
}

// A refusal: no bytes.
fn refuse(answer: usize) -> Written
    ensures { result ≡ refused answer }
{
    Written { answer, count: 0 }
}

// The page of a plan at the front of `out`, and its count of bytes; the sheet's questions, 4, 9 where the page does not
// fit, and 10 where there is not one start and one instance per operation, or they are no consistent full table. With a
// refusal `out` stays as it was. `ROOM` bytes are always enough.
pub fn page(
    sheet: Sheet,
    interval: usize,
    starts: &[usize],
    instances: &[usize],
    out: &mut [u8],
) -> Written
    ensures { PageAt sheet interval starts.now instances.now out.old (record { written = result; buffer = out.new }) }
{
    if let Err(refusal) = questions::asked(sheet, interval) {
        return refuse(refusal.number());
    }
    if out.len() < page_writer::page_length(sheet, interval) {
        return refuse(9);
    }
    let count = sheet.op_count;
    if starts.len() != count {
        return refuse(10);
    }
    if instances.len() != count {
        return refuse(10);
    }
    let table = full_table(count, starts, instances);
    if !placing_table::consistent(sheet, interval, table) {
        return refuse(10);
    }
    let bytes = page_writer::put_page(out, sheet, interval, table);
    Written {
        answer: 0,
        count: bytes,
    }
}
