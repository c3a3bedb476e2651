// The lines of one interval: the answer, the interval, and then the loop or a line for each operation.
// An inner layer, a crate of its own for the check's time. Callers give an answer of the plan at that interval, whose
// numbers are small (`SmallAnswer`).
#![tactic(auto)]

ghost use Rattle.std.specs.Prelude.{◌≡◌, ◌+◌, ◌<◌, ◌≤◌, length, get_or, take};
ghost use Rattle.sizes.specs.Sizes.{most_operations};
ghost use Rattle.text.specs.Text.{over, buffer_of};
ghost use Rattle.text.specs.Sizes.{three_digits};
ghost use Rattle.text.specs.Line.{text_of, written_of};
ghost use Rattle.text.specs.Lines.{line_text_of, lines_text, no_line};
ghost use Rattle.text.specs.Answers.{loop_line, at_line};
ghost use Rattle.interval_lines.specs.IntervalLines.{interval_lines, plan_text};
ghost use Rattle.interval_lines.specs.Places.{head_lines};
ghost use Rattle.interval_lines.specs.Small.{SmallAnswer, SmallList};

use plan::PlanAnswer;
use sheet::Sheet;
use sizes::MOST_OPERATIONS;
use text::{Key, Line, Written};

// The answer and the interval come first.
const HEAD_LINES: usize = 2;

fn at_line(t: usize, u: usize) -> Line
    requires { (t ≤ three_digits) × (u ≤ three_digits) }
    ensures { text_of result ≡ line_text_of (at_line t u) }
{
    text_line::line_of(Key::At, &[t as i32, u as i32])
}

// The loop: its first `count` edges.
fn loop_line(edges: [usize; MOST_OPERATIONS], count: usize) -> Line
    requires { SmallList edges }
    ensures { text_of result ≡ line_text_of (loop_line (take count edges)) }
{
    lines::numbers_line(Key::Loop, count, edges)
}

fn line_at(s: Sheet, interval: usize, a: PlanAnswer, i: usize) -> Line
    requires { SmallAnswer s interval a × (i < length (interval_lines s interval a)) }
    ensures { text_of result ≡ line_text_of (get_or (interval_lines s interval a) i no_line) }
{
    if i == 0 {
        return text_line::count_line(Key::Answer, a.answer);
    }
    if i == 1 {
        return text_line::count_line(Key::Interval, interval);
    }
    if a.answer == 5 {
        let edges = a.loop_edges;
        return loop_line(edges, a.loop_length);
    }
    let k = i - HEAD_LINES;
    at_line(a.starts[k], a.instances[k])
}

fn line_count(s: Sheet, interval: usize, a: PlanAnswer) -> usize
    requires { SmallAnswer s interval a }
    ensures { (result ≡ length (interval_lines s interval a)) × (result ≤ head_lines + most_operations) }
{
    if a.answer == 0 {
        return HEAD_LINES + s.op_count;
    }
    if a.answer == 5 {
        return HEAD_LINES + 1;
    }
    HEAD_LINES
}

// How many bytes the lines have, and so the room that they need in a buffer. No crate calls it.
pub fn text_length(s: Sheet, interval: usize, a: PlanAnswer) -> usize
    requires { SmallAnswer s interval a }
    ensures { result ≡ length (lines_text (interval_lines s interval a)) }
{
    let lines = line_count(s, interval, a);
    text_line::lines_length(lines, &|i| line_at(s, interval, a, i))
}

// The lines at the front of `out`, which takes them, and how many bytes they have.
pub fn fill(out: &mut [u8], s: Sheet, interval: usize, a: PlanAnswer) -> usize
    requires { SmallAnswer s interval a × (length (lines_text (interval_lines s interval a)) ≤ length out.old) }
    ensures value { result ≡ length (lines_text (interval_lines s interval a)) }
    ensures out_after { out.new ≡ over (lines_text (interval_lines s interval a)) out.old }
{
    text_line::fill_lines(
        out,
        line_count(s, interval, a),
        &|i| line_at(s, interval, a, i),
    )
}

// The lines of one interval at the front of `out` and their count of bytes; 9 where they do not fit, and then `out`
// stays as it was.
pub fn put_interval(out: &mut [u8], sheet: Sheet, interval: usize, a: PlanAnswer) -> Written
    requires { SmallAnswer sheet interval a }
    ensures { (result ≡ written_of (plan_text sheet interval a) out.old) × (out.new ≡ buffer_of (plan_text sheet interval a) out.old) }
{
    let lines = line_count(sheet, interval, a);
    text_line::put_lines(out, lines, &|i| line_at(sheet, interval, a, i))
}
