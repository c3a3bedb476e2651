// The lines of the slot order of a pair.
ghost use Rattle.sheet.specs.Sheet.{InRange};
ghost use Rattle.command_lines.specs.Shows.{Lists};
ghost use Rattle.command_lines.specs.Prints.{Serves};

use lines::Lines;
use sheet::Sheet;
use text::Key;
use words::Command;

// The slot order of a pair, or why there is none.
pub fn order(sheet: Sheet, interval: usize, pair: usize) -> Lines
    requires { InRange sheet }
    ensures { Lists (Serves sheet (Command.Order interval pair)) result }
{
    let found = slot_order::slot_order(sheet, interval, pair);
    if found.answer == 0 {
        let answered = command_lines::alone(found.answer);
        return lines::with(answered, text_line::count_line(Key::Order, found.order));
    }
    let edges = found.loop_edges;
    command_lines::denied(found.answer, found.loop_length, edges)
}
