// One line of text, made and written into a lent buffer; and a whole text. `text` has the keys, the numbers and what
// a line is: text/specs/Line.antt. A crate of its own for the check's time. `lines`, `writer` and `interval_lines`,
// which call the functions of many lines, give a closure that may be called at each place and some hundred places at
// most.
#![tactic(auto)]

ghost use Rattle.std.specs.Prelude.{◌≡◌, [], ◌∷◌, ◌+◌, ◌≤◌, ◌<◌, min, pos, length, take};
ghost use Rattle.text.specs.Text.{end_of, signed_text, line_text, over, buffer_of};
ghost use Rattle.text.specs.Line.{key_of, text_of, line_of_numbers, count_of, written_of};
ghost use Rattle.text.specs.Sizes.{most_values, greatest_number, longest_line};
ghost use Rattle.text.specs.Writing.{pasted};
ghost use Rattle.text.specs.Joined.{value_text};

mod many; // many.rt: many lines by their places

pub use many::{fill_lines, lines_length, put_lines};
use text::{GREATEST_NUMBER, Key, Line, MOST_VALUES, Written};

// The byte after a number with `more` of them to come.
fn end_byte(more: usize) -> u8
    ensures { result ≡ end_of more }
{
    if more == 0 { b'\n' } else { b',' }
}

// A line of the numbers, at most as many as a line can have. The values past them are 0.
pub fn line_of(key: Key, numbers: &[i32]) -> Line
    ensures value { result ≡ line_of_numbers key numbers.now }
    ensures result_value { text_of result ≡ line_text (key_of key) (take most_values numbers.now) }
{
    let count = numbers.len().min(MOST_VALUES);
    let mut values = [0; MOST_VALUES];
    values[..count].copy_from_slice(&numbers[..count]);
    Line { key, count, values }
}

// A line with one number: n, or the greatest that a line can have where n is above it.
pub fn count_line(key: Key, n: usize) -> Line
    ensures { text_of result ≡ line_text (key_of key) (pos (min n greatest_number) ∷ []) }
{
    line_of(key, &[n.min(GREATEST_NUMBER) as i32])
}

// How many bytes the line has.
pub fn line_length(line: Line) -> usize
    ensures { (result ≡ length (text_of line)) × (result ≤ longest_line) }
{
    let mut total = text::key_length(line.key);
    for v in line.numbers() {
        total += text::signed_length(*v) + 1;
    }
    total
}

// A number and the byte after it from `at` on, with `more` numbers to come, and the place after them.
fn put_value(out: &mut [u8], at: usize, value: i32, more: usize) -> usize
    requires { at + length (signed_text value) < length out.old }
    ensures { (result ≡ at + length (value_text value more)) × (out.new ≡ pasted at (value_text value more) out.old) }
{
    let end = text::put_signed_at(out, at, value);
    text::put_byte_at(out, end, end_byte(more))
}

// The line at the front of `out`, which takes it.
fn fill_line(out: &mut [u8], line: Line) -> usize
    requires { length (text_of line) ≤ length out.old }
    ensures { (result ≡ length (text_of line)) × (out.new ≡ over (text_of line) out.old) }
{
    let numbers = line.numbers();
    let mut at = text::put_key(out, line.key);
    for (i, v) in numbers.iter().enumerate() {
        at = put_value(out, at, *v, numbers.len() - i - 1);
    }
    at
}

// The whole line at the front of `out`, and how many bytes it has; 0 where it does not fit, and then `out` stays as it
// was.
// Kept: 0 is the count of bytes written, which `fill_lines` adds.
pub fn put_line(out: &mut [u8], line: Line) -> usize
    ensures value { result ≡ count_of (text_of line) out.old }
    ensures out_after { out.new ≡ buffer_of (text_of line) out.old }
{
    if out.len() < line_length(line) {
        return 0;
    }
    fill_line(out, line)
}

// The whole text at the front of `out`, or 9 where it does not fit, and then `out` stays as it was.
pub fn put_text(out: &mut [u8], text: &[u8]) -> Written
    ensures value { result ≡ written_of text.now out.old }
    ensures out_after { out.new ≡ buffer_of text.now out.old }
{
    if out.len() < text.len() {
        return Written {
            answer: 9,
            count: 0,
        };
    }
    let count = text::put_bytes(out, text);
    Written { answer: 0, count }
}
