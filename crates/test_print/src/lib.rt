// What the test programs print by: text, numbers and lines on standard output. No contract can say what is written; the
// functions are proved safe. Each gives the error of a write that fails.
#![tactic(auto)]

use std::io;

pub fn text(rt: &impl Print, s: &[u8]) -> io::Result<()> {
    rt.write_all(s)
}

pub fn number(rt: &impl Print, n: usize) -> io::Result<()> {
    rt.print(n)
}

// The first n bytes, where there are so many.
pub fn front(rt: &impl Print, s: &[u8], n: usize) -> io::Result<()> {
    if n <= s.len() {
        text(rt, &s[..n])?;
    }
    Ok(())
}

// A key and a number.
pub fn line(rt: &impl Print, key: &[u8], n: usize) -> io::Result<()> {
    text(rt, key)?;
    number(rt, n)?;
    text(rt, b"\n")
}

// A key and two numbers.
pub fn pair(rt: &impl Print, key: &[u8], first: usize, second: usize) -> io::Result<()> {
    text(rt, key)?;
    number(rt, first)?;
    text(rt, b",")?;
    number(rt, second)?;
    text(rt, b"\n")
}
