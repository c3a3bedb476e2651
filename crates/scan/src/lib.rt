// Reads one line of text: a key with its equals sign, whole numbers split by single commas, and a line feed.
#![tactic(auto)]

ghost use Rattle.std.specs.Prelude.{◌≡◌, [], ◌≤◌, eqb, length, drop, IfSome};
ghost use Rattle.scan_number.specs.Number.{seen_whole, WithinWhole};
ghost use Rattle.scan.specs.Line.{most_numbers, stripped, seen_place, field_of, fields_from, due_line, seen_line, LineFits};
ghost use Rattle.scan.specs.Plain.{plain_line, seen_plain, PlainFits};
ghost use Rattle.text.specs.Text.{end_of};

use scan_number::{Class, classify, read_whole};

// The most numbers that a line may have.
const MOST_NUMBERS: usize = 8;

// The place of no number, for a line of which none may carry a minus.
pub const NO_MINUS: usize = MOST_NUMBERS;

// Whether b ends a number that has `more` numbers after it in its line: a comma, or a line feed after the last.
#[tactic(auto, using(crate::proofs::Fields::comma_ends, crate::proofs::Fields::feed_ends, crate::proofs::Fields::other_ends))]
fn ends_number(b: u8, more: usize) -> bool
    ensures { result ≡ eqb b (end_of more) }
{
    match classify(b) {
        Class::Comma => 0 < more,
        Class::LineFeed => more == 0,
        _ => false,
    }
}

// A number and the byte that ends it, with `more` numbers after it in its line; and the place after that byte.
#[tactic(auto, using(crate::proofs::Fields::field_none, crate::proofs::Fields::field_got, crate::proofs::Fields::field_other, crate::proofs::Fields::field_short))]
fn read_field(s: &[u8], at: usize, more: usize, minus: bool) -> Option<(i32, usize)>
    ensures result_value { seen_whole s.now result ≡ field_of (end_of more) minus (drop at s.now) }
    ensures within_whole { IfSome result (λ r. WithinWhole s.now r) }
{
    let (v, next) = read_whole(s, at, minus)?;
    let end = *s.get(next)?;
    if ends_number(end, more) {
        Some((v, next + 1))
    } else {
        None
    }
}

// The place after a key, where the bytes begin with it.
#[tactic(auto, using(crate::proofs::Fields::key_here, crate::proofs::Fields::key_missing))]
pub fn after_key(s: &[u8], at: usize, key: &[u8]) -> Option<usize>
    requires { at ≤ length s.now }
    ensures result_value { seen_place s.now result ≡ stripped key.now (drop at s.now) }
    ensures within_place { IfSome result (λ p. p ≤ length s.now) }
{
    if s[at..].starts_with(key) {
        Some(at + key.len())
    } else {
        None
    }
}

// A line's numbers and the place after its line feed. Values past the line's numbers are 0.
#[derive(Clone, Copy)]
pub struct Line {
    pub values: [i32; MOST_NUMBERS],
    pub next: usize,
}

// The count numbers of a line, from `start`; the one at `minus` may carry a minus.
#[tactic(auto, using(crate::proofs::Fields::numbers_stop, crate::proofs::Fields::numbers_more, crate::proofs::Fields::numbers_end, crate::proofs::Fields::filled_none, crate::proofs::Fields::filled_more, crate::proofs::Fields::small_bits, crate::proofs::Fields::fits_line))]
fn read_numbers(s: &[u8], start: usize, count: usize, minus: usize) -> Option<Line>
    requires { (start ≤ length s.now) × (count ≤ most_numbers) }
    ensures result_value { seen_line s.now count result ≡ fields_from count minus [] (drop start s.now) }
    ensures line_fits { IfSome result (λ l. LineFits s.now count l) }
{
    let mut values = [0i32; MOST_NUMBERS];
    let mut next = start;
    for i in 0..count {
        let (v, after) = read_field(s, next, count - (i + 1), i == minus)?;
        values[i] = v;
        next = after;
    }
    Some(Line { values, next })
}

// The line at `at` with this key (its equals sign included) and count numbers, of which the one at `minus` may carry a
// minus.
// A line has one number to the most: with any other count, as with any malformed line, there is none.
#[tactic(auto, using(crate::proofs::Fields::line_none, crate::proofs::Fields::line_long, crate::proofs::Fields::line_past, crate::proofs::Fields::line_after, crate::proofs::Fields::line_missing))]
pub fn read_line(s: &[u8], at: usize, key: &[u8], count: usize, minus: usize) -> Option<Line>
    ensures result_value { seen_line s.now count result ≡ due_line key.now count minus (drop at s.now) }
    ensures line_fits { IfSome result (λ l. LineFits s.now count l) }
{
    if count < 1 || MOST_NUMBERS < count || s.len() < at {
        return None;
    }
    let start = after_key(s, at, key)?;
    read_numbers(s, start, count, minus)
}

// The most numbers of a plain line: one of which no number carries a minus.
const MOST_PLAIN: usize = 3;

// A plain line's numbers and the place after its line feed. What is past its numbers is 0.
#[derive(Clone, Copy)]
pub struct PlainLine {
    pub first: usize,
    pub second: usize,
    pub third: usize,
    pub next: usize,
}

// The plain line at `at` with this key (its equals sign included) and count numbers, one to three. With any other
// count, as with any malformed line, there is none.
#[tactic(auto, using(crate::specs::PlainLaws::plain_over, crate::specs::PlainLaws::plain_none, crate::specs::PlainLaws::plain_cast, crate::specs::PlainLaws::plain_some, crate::specs::PlainLaws::plain_fits))]
pub fn read_plain(s: &[u8], at: usize, key: &[u8], count: usize) -> Option<PlainLine>
    ensures result_value { seen_plain s.now count result ≡ plain_line key.now count (drop at s.now) }
    ensures plain_fits { IfSome result (λ r. PlainFits s.now count r) }
{
    if MOST_PLAIN < count {
        return None;
    }
    let line = read_line(s, at, key, count, NO_MINUS)?;
    let values = line.values;
    Some(PlainLine {
        first: values[0] as usize,
        second: values[1] as usize,
        third: values[2] as usize,
        next: line.next,
    })
}
