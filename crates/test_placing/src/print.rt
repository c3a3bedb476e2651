// Lines on standard output: a key and the numbers of an answer.
use placing::OfferAnswer;
use placing_table::{Placement, Table};
use sizes::MOST_OPERATIONS;
use std::io;
use test_print::{number, text};

fn flag(rt: &impl Print, yes: bool) -> io::Result<()> {
    if yes {
        text(rt, b"1")?;
        return Ok(());
    }
    text(rt, b"0")
}

// The answer of a new table.
pub fn made(rt: &impl Print, answer: usize) -> io::Result<()> {
    test_print::line(rt, b"new=", answer)
}

// Whether a table is consistent.
pub fn verdict(rt: &impl Print, consistent: bool) -> io::Result<()> {
    text(rt, b"consistent=")?;
    flag(rt, consistent)?;
    text(rt, b"\n")
}

// The answer of a placing, and the instance.
pub fn placed(rt: &impl Print, answer: usize, instance: usize) -> io::Result<()> {
    test_print::pair(rt, b"place=", answer, instance)
}

// The same of a booking.
pub fn booked(rt: &impl Print, answer: usize, instance: usize) -> io::Result<()> {
    test_print::pair(rt, b"book=", answer, instance)
}

// The answer of an offer, and what it names.
pub fn offered(rt: &impl Print, given: OfferAnswer) -> io::Result<()> {
    let offer = given.offer;
    text(rt, b"offer=")?;
    number(rt, given.answer)?;
    text(rt, b",")?;
    number(rt, offer.operation)?;
    text(rt, b",")?;
    number(rt, offer.start)?;
    text(rt, b",")?;
    number(rt, offer.instance)?;
    text(rt, b"\n")
}

fn is_nothing(p: Placement) -> bool {
    !p.placed && p.start == 0 && p.instance == 0
}

// An entry, unless all of it is 0.
fn entry(rt: &impl Print, i: usize, p: Placement) -> io::Result<()> {
    if is_nothing(p) {
        return Ok(());
    }
    text(rt, b"entry=")?;
    number(rt, i)?;
    text(rt, b",")?;
    flag(rt, p.placed)?;
    text(rt, b",")?;
    number(rt, p.start)?;
    text(rt, b",")?;
    number(rt, p.instance)?;
    text(rt, b"\n")
}

// The entries of a table; those that are not printed are all 0.
pub fn table(rt: &impl Print, all: Table) -> io::Result<()> {
    for i in 0..MOST_OPERATIONS {
        let p = all.entries[i];
        entry(rt, i, p)?;
    }
    Ok(())
}
