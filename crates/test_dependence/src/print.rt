// Lines on standard output that only this program prints.
use dependence::NO_WALK;
use sizes::MOST_OPERATIONS;
use std::io;
use test_print::{number, text};

pub fn signed(rt: &impl Print, v: i32) -> io::Result<()> {
    let wide = v as i64;
    if wide < 0 {
        text(rt, b"-")?;
        rt.print((0 - wide) as u64)?;
    } else {
        rt.print(wide as u64)?;
    }
    Ok(())
}

// A key, a number, and the first `count` entries of a list.
pub fn list(
    rt: &impl Print,
    key: &[u8],
    first: usize,
    entries: [usize; MOST_OPERATIONS],
    count: usize,
) -> io::Result<()> {
    text(rt, key)?;
    number(rt, first)?;
    for i in 0..MOST_OPERATIONS {
        if i < count {
            text(rt, b",")?;
            number(rt, entries[i])?;
        }
    }
    text(rt, b"\n")
}

// An entry of a row; x where there is no walk.
fn entry(rt: &impl Print, v: i32) -> io::Result<()> {
    if v <= NO_WALK {
        text(rt, b"x")?;
    } else {
        signed(rt, v)?;
    }
    Ok(())
}

// A key and the first `count` entries of a row.
pub fn row(
    rt: &impl Print,
    key: &[u8],
    entries: [i32; MOST_OPERATIONS],
    count: usize,
) -> io::Result<()> {
    text(rt, key)?;
    for i in 0..MOST_OPERATIONS {
        if i < count {
            if 0 < i {
                text(rt, b",")?;
            }
            entry(rt, entries[i])?;
        }
    }
    text(rt, b"\n")
}
