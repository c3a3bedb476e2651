// The rows of the separation table as lines: N sums, and the mark "no number" where there is no walk.
ghost use Rattle.std.specs.Prelude.{◌≡◌, ◌∷◌, ◌≤◌};
ghost use Rattle.sizes.specs.Sizes.{most_operations};
ghost use Rattle.laws.specs.Entry.{at, cell};
ghost use Rattle.laws.specs.Each.{each};
ghost use Rattle.text.specs.Sizes.{greatest_number};
ghost use Rattle.text.specs.Line.{text_of};
ghost use Rattle.text.specs.Lines.{line_text_of};
ghost use Rattle.text.specs.Answers.{answer_line, interval_line};
ghost use Rattle.command_lines.specs.Listing.{cell_of, row_line};
ghost use Rattle.command_lines.specs.Shows.{Shows};

use crate::parts::headed;
use dependence::NO_WALK;
use lines::Lines;
use sizes::MOST_OPERATIONS;
use text::{Key, Line, NO_NUMBER};

// A cell of the table as a value of a line.
fn cell_value(sum: i32) -> i32
    ensures { result ≡ cell_of sum }
{
    if sum <= NO_WALK {
        return NO_NUMBER;
    }
    sum
}

// The line of a row with `count` columns.
fn row_line(row: [i32; MOST_OPERATIONS], count: usize) -> Line
    requires { count ≤ most_operations }
    ensures { text_of result ≡ line_text_of (row_line count (at row)) }
{
    let mut values = [0i32; MOST_OPERATIONS];
    for i in 0..MOST_OPERATIONS {
        values[i] = cell_value(row[i]);
    }
    Line {
        key: Key::Row,
        count,
        values,
    }
}

// The answer 0, the interval, and a row for each operation.
pub fn rows(ops: usize, interval: usize, table: [[i32; MOST_OPERATIONS]; MOST_OPERATIONS]) -> Lines
    requires { (ops ≤ most_operations) × (interval ≤ greatest_number) }
    ensures { Shows result (answer_line 0 ∷ interval_line interval ∷ each ops (λ i. row_line ops (cell table i))) }
{
    let mut ls = headed(0, interval);
    for i in 0..ops {
        let row = table[i];
        ls = lines::with(ls, row_line(row, ops));
    }
    ls
}
