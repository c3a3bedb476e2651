// Text in columns, from a place of the lent buffer on. Callers give numbers of at most three digits and a buffer that
// takes the text.
ghost use Rattle.std.specs.Prelude.{◌≡◌, ◌+◌, ◌≤◌, length};
ghost use Rattle.text.specs.Sizes.{three_digits};
ghost use Rattle.text.specs.Text.{digits};
ghost use Rattle.page_text.specs.Columns.{right};
ghost use Rattle.page_text.specs.Digits.{hundreds_byte, tens_byte};
ghost use Rattle.text.specs.Pasting.{Pasted};

// The bytes from `at` on, and the place after them.
pub fn put_at(out: &mut [u8], at: usize, bytes: &[u8]) -> usize
    requires { at + length bytes.now ≤ length out.old }
    ensures { Pasted at bytes.now out.old out.new result }
{
    let written = text_line::put_text(&mut out[at..], bytes);
    at + written.count
}

// The first of three digits, a blank where there is none.
fn hundreds_byte(n: usize) -> u8
    requires { n ≤ three_digits }
    ensures { result ≡ hundreds_byte n }
{
    if n < 100 {
        return b' ';
    }
    (48 + n / 100) as u8
}

// The second of three digits, a blank where there is none.
fn tens_byte(n: usize) -> u8
    requires { n ≤ three_digits }
    ensures { result ≡ tens_byte n }
{
    if n < 10 {
        return b' ';
    }
    (48 + n / 10 % 10) as u8
}

// A number right-aligned in five.
fn in_five(n: usize) -> [u8; 5]
    requires { n ≤ three_digits }
    ensures { result ≡ right 5 (digits n) }
{
    let ones_byte = (48 + n % 10) as u8;
    [b' ', b' ', hundreds_byte(n), tens_byte(n), ones_byte]
}

// A number right-aligned in five from `at` on, and the place after it.
pub fn put_in_five(out: &mut [u8], at: usize, n: usize) -> usize
    requires { (n ≤ three_digits) × (at + 5 ≤ length out.old) }
    ensures { Pasted at (right 5 (digits n)) out.old out.new result }
{
    let bytes = in_five(n);
    put_at(out, at, &bytes)
}

// The same in four.
pub fn put_in_four(out: &mut [u8], at: usize, n: usize) -> usize
    requires { (n ≤ three_digits) × (at + 4 ≤ length out.old) }
    ensures { Pasted at (right 4 (digits n)) out.old out.new result }
{
    let bytes = in_five(n);
    put_at(out, at, &bytes[1..])
}
