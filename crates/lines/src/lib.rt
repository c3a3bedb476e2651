// A list of lines by value, for what is made line by line, and its text into a lent buffer.
#![tactic(auto)]

ghost use Rattle.std.specs.Prelude.{◌≡◌, map, ◌<◌, length, get_or, take};
ghost use Rattle.text.specs.Text.{line_text, buffer_of};
ghost use Rattle.text.specs.Line.{key_of, text_of, written_of};
ghost use Rattle.text.specs.Lines.{line_text_of, no_line};
ghost use Rattle.lines.specs.Lines.{shown, no_lines, with_line, capped};
ghost use Rattle.lines.specs.Shown.{shown_lines};

use sizes::MOST_OPERATIONS;
use text::{GREATEST_NUMBER, Key, Line, MOST_VALUES, Written};

// The lines `answer=` and `interval=`.
const HEAD_LINES: usize = 2;

// Lines in a list: those two, and one for each operation.
pub const MOST_LINES: usize = HEAD_LINES + MOST_OPERATIONS;

// The first `count` lines, all of them where `count` is above that.
// Kept: fixed memory, so the array has its count beside it.
#[derive(Clone, Copy)]
pub struct Lines {
    pub count: usize,
    pub lines: [Line; MOST_LINES],
}

// What stands past the lines of a new list.
const BLANK: Line = Line {
    key: Key::Horizon,
    count: 0,
    values: [0; MOST_VALUES],
};

// No line.
pub fn none() -> Lines
    ensures { result ≡ no_lines }
{
    let lines = [BLANK; MOST_LINES];
    Lines { count: 0, lines }
}

// One line more at the end; a full list stays as it is.
pub fn with(ls: Lines, line: Line) -> Lines
    ensures { result ≡ with_line ls line }
{
    let at = ls.count;
    if MOST_LINES <= at {
        return ls;
    }
    let mut lines = ls.lines;
    lines[at] = line;
    Lines {
        count: at + 1,
        lines,
    }
}

// How many lines the list has.
fn line_count(ls: &Lines) -> usize
    ensures { result ≡ length (shown_lines ls.now) }
{
    ls.count.min(MOST_LINES)
}

fn line_at(ls: &Lines, i: usize) -> Line
    requires { i < length (shown_lines ls.now) }
    ensures { text_of result ≡ line_text_of (get_or (shown_lines ls.now) i no_line) }
{
    ls.lines[i]
}

// The text of all lines at the front of `out`, or 9 where it does not fit, and then `out` stays as it was.
pub fn put(out: &mut [u8], ls: Lines) -> Written
    ensures value { result ≡ written_of (shown ls) out.old }
    ensures out_after { out.new ≡ buffer_of (shown ls) out.old }
{
    text_line::put_lines(out, line_count(&ls), &|i| line_at(&ls, i))
}

// n, or the greatest number that a line can have where n is above it.
fn number(n: usize) -> i32
    ensures { result ≡ capped n }
{
    n.min(GREATEST_NUMBER) as i32
}

// A line of the first `count` numbers. One past the greatest that a line can have is written as that.
pub fn numbers_line(key: Key, count: usize, numbers: [usize; MOST_OPERATIONS]) -> Line
    ensures { text_of result ≡ line_text (key_of key) (map capped (take count numbers)) }
{
    Line {
        key,
        count,
        values: numbers.map(number),
    }
}
