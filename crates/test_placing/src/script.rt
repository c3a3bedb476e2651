// Scripts on a placing table of one sheet. A script begins with a table of zeros; each of its lines is one of these:
//   new=L           takes a new table for interval L
//   entry=i,p,t,u   writes entry i of the table: start t, instance u, placed where p is not 0
//   consistent=L    asks whether the table is consistent at interval L
//   offer=L,i,t     asks for an offer for operation i at start t at interval L
//   book=L,i,t,u    books the offer of instance u to operation i at start t at interval L
//   place=L,i,t     places operation i at start t at interval L
//   table=0         prints the table
// Any other line ends the script.
use crate::print;
use placing::Offer;
use placing_table::{Placement, Table};
use scan::read_line;
use sheet::Sheet;
use sizes::MOST_OPERATIONS;
use std::io;

// No number of a line may carry a minus.
const NO_MINUS: usize = 8;

// The table after a line, and the place after that line; 0 where there is none.
#[derive(Drop)]
struct Step {
    next: usize,
    table: Table,
}

fn count_of(v: i32) -> usize {
    if v < 0 {
        return 0;
    }
    v as usize
}

fn empty() -> Table {
    let nothing = Placement {
        placed: false,
        start: 0,
        instance: 0,
    };
    Table {
        entries: [nothing; MOST_OPERATIONS],
    }
}

fn made(rt: &impl Print, sheet: Sheet, interval: usize) -> io::Result<Table> {
    let new = placing::new_table(sheet, interval);
    print::made(rt, new.answer)?;
    Ok(new.table)
}

fn written(table: Table, i: usize, p: Placement) -> Table {
    if MOST_OPERATIONS <= i {
        return table;
    }
    let mut entries = table.entries;
    entries[i] = p;
    Table { entries }
}

fn placed(
    rt: &impl Print,
    sheet: Sheet,
    interval: usize,
    table: Table,
    op: usize,
    start: usize,
) -> io::Result<Table> {
    let answer = placing::place(sheet, interval, table, op, start);
    print::placed(rt, answer.answer, answer.instance)?;
    Ok(answer.table)
}

fn booked(
    rt: &impl Print,
    sheet: Sheet,
    interval: usize,
    table: Table,
    offer: Offer,
) -> io::Result<Table> {
    let answer = placing::book(sheet, interval, table, offer);
    print::booked(rt, answer.answer, answer.instance)?;
    Ok(answer.table)
}

// The lines that hand in a table or a part of it.
fn handed_in(rt: &impl Print, sheet: Sheet, table: Table, s: &[u8], at: usize) -> io::Result<Step> {
    if let Some(new) = read_line(s, at, b"new=", 1, NO_MINUS) {
        let v = new.values;
        return Ok(Step {
            next: new.next,
            table: made(rt, sheet, count_of(v[0]))?,
        });
    }
    if let Some(entry) = read_line(s, at, b"entry=", 4, NO_MINUS) {
        let v = entry.values;
        let p = Placement {
            placed: v[1] != 0,
            start: count_of(v[2]),
            instance: count_of(v[3]),
        };
        return Ok(Step {
            next: entry.next,
            table: written(table, count_of(v[0]), p),
        });
    }
    Ok(Step { next: 0, table })
}

// The lines that put an operation in.
fn put_in(rt: &impl Print, sheet: Sheet, table: Table, s: &[u8], at: usize) -> io::Result<Step> {
    if let Some(place) = read_line(s, at, b"place=", 3, NO_MINUS) {
        let v = place.values;
        return Ok(Step {
            next: place.next,
            table: placed(
                rt,
                sheet,
                count_of(v[0]),
                table,
                count_of(v[1]),
                count_of(v[2]),
            )?,
        });
    }
    if let Some(book) = read_line(s, at, b"book=", 4, NO_MINUS) {
        let v = book.values;
        let offer = Offer {
            operation: count_of(v[1]),
            start: count_of(v[2]),
            instance: count_of(v[3]),
        };
        return Ok(Step {
            next: book.next,
            table: booked(rt, sheet, count_of(v[0]), table, offer)?,
        });
    }
    Ok(Step { next: 0, table })
}

// The lines that ask about the table: the place after the line, 0 where there is none.
fn asked(rt: &impl Print, sheet: Sheet, table: Table, s: &[u8], at: usize) -> io::Result<usize> {
    if let Some(consistent) = read_line(s, at, b"consistent=", 1, NO_MINUS) {
        let v = consistent.values;
        print::verdict(rt, placing_table::consistent(sheet, count_of(v[0]), table))?;
        return Ok(consistent.next);
    }
    if let Some(offer) = read_line(s, at, b"offer=", 3, NO_MINUS) {
        let v = offer.values;
        print::offered(
            rt,
            placing::make_offer(sheet, count_of(v[0]), table, count_of(v[1]), count_of(v[2])),
        )?;
        return Ok(offer.next);
    }
    if let Some(whole) = read_line(s, at, b"table=", 1, NO_MINUS) {
        print::table(rt, table)?;
        return Ok(whole.next);
    }
    Ok(0)
}

fn line(rt: &impl Print, sheet: Sheet, table: Table, s: &[u8], at: usize) -> io::Result<Step> {
    let next = asked(rt, sheet, table, s, at)?;
    if at < next {
        return Ok(Step { next, table });
    }
    let step = handed_in(rt, sheet, table, s, at)?;
    if at < step.next {
        return Ok(step);
    }
    put_in(rt, sheet, table, s, at)
}

pub fn run(rt: &impl Print, sheet: Sheet, s: &[u8]) -> io::Result<()> {
    let mut table = empty();
    let mut at: usize = 0;
    while at < s.len() {
        let done = line(rt, sheet, table, s, at)?;
        if done.next <= at {
            return Ok(());
        }
        let next = done.table;
        table = next;
        at = done.next;
    }
    Ok(())
}
