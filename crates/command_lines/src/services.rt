// The lines of each service's answer about a sheet that was read.
ghost use Rattle.std.specs.Prelude.{◌∷◌, ◌≤◌};
ghost use Rattle.sizes.specs.Sizes.{most_operations};
ghost use Rattle.laws.specs.Entry.{vec};
ghost use Rattle.laws.specs.Each.{each};
ghost use Rattle.text.specs.Sizes.{greatest_number};
ghost use Rattle.text.specs.Answers.{answer_line, interval_line};
ghost use Rattle.sheet.specs.Sheet.{InRange};
ghost use Rattle.command_lines.specs.Listing.{start_line};
ghost use Rattle.command_lines.specs.Shows.{Shows, Lists, Printable};
ghost use Rattle.command_lines.specs.Prints.{Serves};

use crate::{cells, parts};
use lines::Lines;
use sheet::Sheet;
use sizes::MOST_OPERATIONS;
use text::Key;
use words::Command;

// The recurrence bound, then the resource bound.
pub fn bounds(sheet: Sheet) -> Lines
    requires { InRange sheet }
    ensures { Lists (Serves sheet Command.Bounds) result }
{
    let recurrence = timing::recurrence_bound(sheet);
    let first = parts::bound(
        lines::none(),
        Key::Recurrence,
        recurrence.answer,
        recurrence.value,
    );
    let resource = plan::resource_bound(sheet);
    parts::bound(first, Key::Resource, resource.answer, resource.value)
}

// The answer 0, the interval, and a start for each operation.
fn start_lines(ops: usize, interval: usize, starts: [usize; MOST_OPERATIONS]) -> Lines
    requires { (ops ≤ most_operations) × (interval ≤ greatest_number) × Printable starts }
    ensures { Shows result (answer_line 0 ∷ interval_line interval ∷ each ops (λ i. start_line (vec starts i))) }
{
    let mut ls = parts::headed(0, interval);
    for i in 0..ops {
        ls = lines::with(ls, text_line::count_line(Key::Start, starts[i]));
    }
    ls
}

// The earliest starts, or why there are none.
pub fn starts(sheet: Sheet, interval: usize) -> Lines
    requires { InRange sheet }
    ensures { Lists (Serves sheet (Command.Starts interval)) result }
{
    let found = timing::earliest_starts(sheet, interval);
    if found.answer == 0 {
        let starts = found.starts;
        return start_lines(sheet.op_count, interval, starts);
    }
    let edges = found.loop_edges;
    parts::refused(found.answer, interval, found.loop_length, edges)
}

// The separations, or why there are none.
pub fn separations(sheet: Sheet, interval: usize) -> Lines
    requires { InRange sheet }
    ensures { Lists (Serves sheet (Command.Separations interval)) result }
{
    let walk = timing::bad_walk(sheet, interval);
    if walk.answer == 0 {
        return cells::rows(
            sheet.op_count,
            interval,
            timing::separations(sheet, interval),
        );
    }
    let edges = walk.loop_edges;
    parts::refused(walk.answer, interval, walk.loop_length, edges)
}
