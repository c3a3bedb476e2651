// Reads one whole number of a line: at most four digits, no leading zero, and a minus where one is allowed. And tells
// what a byte after the equals sign is. An inner layer, a crate of its own for the check's time. Callers: `scan` and
// `scan_list`.
#![tactic(auto)]

ghost use Rattle.std.specs.Prelude.{◌≡◌, ◌≤◌, length, drop, IfSome};
ghost use Rattle.scan_number.specs.Number.{class_of, number, more_digits, seen, Within, signed_of, signed_number, whole_of, seen_whole, WithinWhole};
ghost use Rattle.text.specs.Sizes.{four_digits};

// The greatest number of three digits.
const THREE_DIGITS: u32 = 999;

// What a byte after the equals sign is.
#[derive(Clone, Copy)]
pub enum Class {
    Minus,
    Digit(u8),
    Comma,
    LineFeed,
    Other,
}

#[tactic(auto, unfolding(crate::specs::Number::class_of))]
pub fn classify(b: u8) -> Class
    ensures { result ≡ class_of b }
{
    match b {
        b'-' => Class::Minus,
        b'0'..=b'9' => Class::Digit(b - 48),
        b',' => Class::Comma,
        b'\n' => Class::LineFeed,
        _ => Class::Other,
    }
}

// The rest of a number whose digits so far stand for `first`, from `at`, and the place after it: four digits at most,
// and none after a leading 0.
#[tactic(auto, using(crate::proofs::Digits::digit_small, crate::proofs::Digits::digit_zero, crate::proofs::Digits::digit_full, crate::proofs::Digits::digit_more, crate::proofs::Digits::digit_stop, crate::proofs::Digits::digit_end))]
fn more_digits(s: &[u8], at: usize, first: u32) -> Option<(u32, usize)>
    requires { (first ≤ 9) × (at ≤ length s.now) }
    ensures result_value { seen s.now result ≡ more_digits first (drop at s.now) }
    ensures within { IfSome result (λ r. Within s.now r) }
{
    let mut v = first;
    for i in at..s.len() {
        let Class::Digit(d) = classify(s[i]) else {
            return Some((v, i));
        };
        if v == 0 || THREE_DIGITS < v {
            return None;
        }
        v = v * 10 + u32::from(d);
    }
    Some((v, s.len()))
}

// The number without a sign at `at`, and the place after it.
#[tactic(auto, using(crate::proofs::Digits::digit_small, crate::proofs::Digits::number_digit, crate::proofs::Digits::number_other, crate::proofs::Digits::number_end))]
pub fn read_number(s: &[u8], at: usize) -> Option<(u32, usize)>
    ensures result_value { seen s.now result ≡ number (drop at s.now) }
    ensures within { IfSome result (λ r. Within s.now r) }
{
    match classify(*s.get(at)?) {
        Class::Digit(d) => more_digits(s, at + 1, u32::from(d)),
        _ => None,
    }
}

// n, or -n.
fn with_sign(negative: bool, n: u32) -> i32
    requires { n ≤ four_digits }
    ensures { result ≡ signed_of negative n }
{
    let v = n as i32;
    if negative { -v } else { v }
}

// The number at `at` with the sign that was read before it, and the place after it; -0 is malformed.
#[tactic(auto, using(crate::proofs::Signs::signed_none, crate::proofs::Signs::signed_plain, crate::proofs::Signs::signed_minus, crate::proofs::Signs::signed_zero, crate::proofs::Signs::mag_signed))]
fn read_signed(s: &[u8], at: usize, negative: bool) -> Option<(i32, usize)>
    ensures result_value { seen_whole s.now result ≡ signed_number negative (drop at s.now) }
    ensures within_whole { IfSome result (λ r. WithinWhole s.now r) }
{
    let (n, next) = read_number(s, at)?;
    if negative && n == 0 {
        return None;
    }
    Some((with_sign(negative, n), next))
}

// The number at `at`, after a minus where one may stand, and the place after it.
#[tactic(auto, using(crate::proofs::Signs::whole_off, crate::proofs::Signs::whole_minus, crate::proofs::Signs::whole_end, crate::proofs::Signs::whole_plain))]
pub fn read_whole(s: &[u8], at: usize, minus: bool) -> Option<(i32, usize)>
    ensures result_value { seen_whole s.now result ≡ whole_of minus (drop at s.now) }
    ensures within_whole { IfSome result (λ r. WithinWhole s.now r) }
{
    match classify(*s.get(at)?) {
        Class::Minus if minus => read_signed(s, at + 1, true),
        _ => read_signed(s, at, false),
    }
}
