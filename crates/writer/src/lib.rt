// Writes a loop sheet as text into a lent buffer, line by line.
#![tactic(auto)]

ghost use Rattle.std.specs.Prelude.{◌≡◌, ◌<◌, ◌≤◌, length, get_or};
ghost use Rattle.sizes.specs.Sizes.{most_operations, most_starts, most_types};
ghost use Rattle.text.specs.Text.{buffer_of};
ghost use Rattle.text.specs.Line.{text_of, written_of};
ghost use Rattle.text.specs.Lines.{line_text_of, no_line};
ghost use Rattle.sheet.specs.Sheet.{InRange, TypeInRange, OpInRange, EdgeInRange};
ghost use Rattle.sheet.specs.Text.{type_line, op_line, edge_line, sheet_lines, sheet_text};
ghost use Rattle.writer.specs.Wrote.{Wrote};
ghost use Rattle.writer.specs.Lines.{head_lines, most_lines};

use dependence::Edge;
use sheet::{Operation, ResourceType, Sheet};
use text::{Key, Line, Written};

// ---- one line of each kind

fn type_line(t: ResourceType) -> Line
    requires { TypeInRange t }
    ensures { text_of result ≡ line_text_of (type_line t) }
{
    text_line::line_of(
        Key::ResourceType,
        &[t.instances as i32, t.latency as i32, t.busy as i32],
    )
}

fn op_line(o: Operation) -> Line
    requires { OpInRange most_types most_starts o }
    ensures { text_of result ≡ line_text_of (op_line o) }
{
    text_line::line_of(Key::Op, &[o.resource as i32, o.lo as i32, o.hi as i32])
}

fn edge_line(e: Edge) -> Line
    requires { EdgeInRange most_operations e }
    ensures { text_of result ≡ line_text_of (edge_line e) }
{
    text_line::line_of(
        Key::Edge,
        &[e.from as i32, e.to as i32, e.delay, e.distance as i32],
    )
}

// ---- the lines of a sheet by their places

// Horizon, cap and the count of types come first.
const HEAD_LINES: usize = 3;

// The first lines.
fn head_line(s: Sheet, i: usize) -> Line
    requires { InRange s × (i < head_lines) }
    ensures { text_of result ≡ line_text_of (get_or (sheet_lines s) i no_line) }
{
    if i == 0 {
        return text_line::count_line(Key::Horizon, s.horizon);
    }
    if i == 1 {
        return text_line::count_line(Key::Cap, s.cap);
    }
    text_line::count_line(Key::Types, s.type_count)
}

fn line_at(s: Sheet, i: usize) -> Line
    requires { InRange s × (i < length (sheet_lines s)) }
    ensures { text_of result ≡ line_text_of (get_or (sheet_lines s) i no_line) }
{
    if i < HEAD_LINES {
        return head_line(s, i);
    }
    let j = i - HEAD_LINES;
    if j < s.type_count {
        return type_line(s.types[j]);
    }
    if j == s.type_count {
        return text_line::count_line(Key::Ops, s.op_count);
    }
    let k = j - s.type_count - 1;
    if k < s.op_count {
        return op_line(s.ops[k]);
    }
    if k == s.op_count {
        return text_line::count_line(Key::Edges, s.edge_count);
    }
    edge_line(s.edges[k - s.op_count - 1])
}

fn line_count(s: Sheet) -> usize
    requires { InRange s }
    ensures { (result ≡ length (sheet_lines s)) × (result ≤ most_lines) }
{
    5 + s.type_count + s.op_count + s.edge_count
}

// ---- the whole text

// The text at the front of `out`, or 9 where it does not fit, and then `out` stays as it was.
fn put_text(s: Sheet, out: &mut [u8]) -> Written
    requires { InRange s }
    ensures { (result ≡ written_of (sheet_text s) out.old) × (out.new ≡ buffer_of (sheet_text s) out.old) }
{
    text_line::put_lines(out, line_count(s), &|i| line_at(s, i))
}

// The sheet's text at the front of `out` and its count of bytes; what the sheet answers, or 9 where the whole text does
// not fit, and then `out` stays as it was.
pub fn write(s: Sheet, out: &mut [u8]) -> Written
    ensures { Wrote s out.old result out.new }
{
    if let Err(refusal) = questions::answer(s) {
        return Written {
            answer: refusal.number(),
            count: 0,
        };
    }
    put_text(s, out)
}
