// Many lines, which a closure gives by their places: their text into a lent buffer, and how long it is.
ghost use Rattle.std.specs.Prelude.{◌≡◌, ◌^◌, ◌<◌, ◌≤◌, ℕ, List, length};
ghost use Rattle.text.specs.Text.{over, buffer_of};
ghost use Rattle.text.specs.Line.{written_of};
ghost use Rattle.text.specs.Lines as bytes;
ghost use Rattle.text.specs.Filling.{Gives};

use text::{Line, Written};

// How many bytes the lines of the places below `count` have.
pub fn lines_length<F: Fn(usize) -> Line>(count: usize, line_at: &F) -> usize
    requires few { count < 2 ^ 32 }
    requires callable { (i : ℕ) → i < count → F.pre line_at.now i }
    ensures { (ls : List bytes.Line) → Gives (F.post line_at.now) count ls → result ≡ length (bytes.lines_text ls) }
{
    let mut total = 0;
    for i in 0..count {
        total += super::line_length(line_at(i));
    }
    total
}

// Their text at the front of `out`, where that takes it, and how many bytes it has.
pub fn fill_lines<F: Fn(usize) -> Line>(out: &mut [u8], count: usize, line_at: &F) -> usize
    requires { (i : ℕ) → i < count → F.pre line_at.now i }
    ensures { (ls : List bytes.Line) → Gives (F.post line_at.now) count ls → length (bytes.lines_text ls) ≤ length out.old
        → (result ≡ length (bytes.lines_text ls)) × (out.new ≡ over (bytes.lines_text ls) out.old) }
{
    let mut at = 0;
    for i in 0..count {
        at += super::put_line(&mut out[at..], line_at(i));
    }
    at
}

// Their text at the front of `out`, or 9 where it does not fit, and then `out` stays as it was.
pub fn put_lines<F: Fn(usize) -> Line>(out: &mut [u8], count: usize, line_at: &F) -> Written
    requires few { count < 2 ^ 32 }
    requires callable { (i : ℕ) → i < count → F.pre line_at.now i }
    ensures { (ls : List bytes.Line) → Gives (F.post line_at.now) count ls
        → (result ≡ written_of (bytes.lines_text ls) out.old) × (out.new ≡ buffer_of (bytes.lines_text ls) out.old) }
{
    if out.len() < lines_length(count, line_at) {
        return Written {
            answer: 9,
            count: 0,
        };
    }
    let count = fill_lines(out, count, line_at);
    Written { answer: 0, count }
}
