// The services on a placing table (modulo reservation table): a new one; an offer of the lowest free instance, which
// alters nothing; booking an offer; and placing, which is both at once. The table itself, what is free in it and
// question 10 are in the crate `placing_table`.
#![tactic(auto)]

ghost use Rattle.std.specs.Prelude.{◌<◌, ◌≡◌};
ghost use Rattle.sizes.specs.Sizes.{most_operations};
ghost use Rattle.laws.specs.Says.{Says};
ghost use Rattle.refusal.specs.Number.{answer_of};
ghost use Rattle.placing_table.specs.Table.{Target};
ghost use Rattle.placing.specs.Answers.{NewAt, AskedToPlace, refused, PlaceAt, no_offer, OfferAt, BookAt, whole};
ghost use Rattle.placing.specs.Change.{changed};

use placing_table::{NOTHING, Placement, Table};
use refusal::Refusal;
use sheet::Sheet;
use sizes::MOST_OPERATIONS;

// The answer, and a table in which nothing is placed.
#[derive(Clone, Copy)]
pub struct NewTable {
    pub answer: usize,
    pub table: Table,
}

// The answer, the instance that the operation got, and the table afterwards.
#[derive(Clone, Copy)]
pub struct PlaceAnswer {
    pub answer: usize,
    pub instance: usize,
    pub table: Table,
}

// An operation, a start, and an instance for it.
#[derive(Clone, Copy)]
pub struct Offer {
    pub operation: usize,
    pub start: usize,
    pub instance: usize,
}

// The answer, and the offer; with a refusal all its numbers are 0.
#[derive(Clone, Copy)]
pub struct OfferAnswer {
    pub answer: usize,
    pub offer: Offer,
}

// ---- a new table

// A table in which nothing is placed: the sheet's questions and 4.
pub fn new_table(sheet: Sheet, interval: usize) -> NewTable
    ensures { NewAt sheet interval result }
{
    let table = Table {
        entries: [NOTHING; MOST_OPERATIONS],
    };
    if let Err(refusal) = questions::asked(sheet, interval) {
        return NewTable {
            answer: refusal.number(),
            table,
        };
    }
    NewTable { answer: 0, table }
}

// ---- what is asked first

// Question 11.
fn target_in_range(sheet: Sheet, op: usize, start: usize) -> bool
    ensures { Says (Target sheet op start) result }
{
    op < sheet.op_count && start < sheet.horizon
}

// The questions before a placing, which an offer and a booking ask first.
fn asked(
    sheet: Sheet,
    interval: usize,
    table: Table,
    op: usize,
    start: usize,
) -> Result<(), Refusal>
    ensures { AskedToPlace sheet interval table op start (answer_of result) }
{
    questions::asked(sheet, interval)?;
    if !placing_table::consistent(sheet, interval, table) {
        return Err(Refusal::ContradictoryTable);
    }
    if !target_in_range(sheet, op, start) {
        return Err(Refusal::PlaceOutOfRange);
    }
    let p = table.entries[op];
    if p.placed {
        return Err(Refusal::AlreadyPlaced);
    }
    Ok(())
}

// The answer with a refusal: the table holds what it held.
fn refuse(answer: usize, table: Table) -> PlaceAnswer
    ensures { result ≡ refused table answer }
{
    PlaceAnswer {
        answer,
        instance: 0,
        table,
    }
}

// ---- an offer, and booking it

// A refused offer: all its numbers are 0.
fn refuse_offer(answer: usize) -> OfferAnswer
    ensures { result ≡ no_offer answer }
{
    let offer = Offer {
        operation: 0,
        start: 0,
        instance: 0,
    };
    OfferAnswer { answer, offer }
}

// Offers an operation at a start the lowest instance that is free in every slot that it would hold: the sheet's
// questions, 4, and 10 to 13; a limited operation with K above L is told by 13. The table comes by value, and none goes
// back.
// Dependences are not considered, and a start need only lie in the horizon: unlike a plan's, its result may come later,
// and it may lie outside its window.
pub fn make_offer(
    sheet: Sheet,
    interval: usize,
    table: Table,
    op: usize,
    start: usize,
) -> OfferAnswer
    ensures { OfferAt sheet interval table op start result }
{
    if let Err(refusal) = asked(sheet, interval, table, op, start) {
        return refuse_offer(refusal.number());
    }
    match placing_table::lowest_free(sheet, interval, table, op, start) {
        None => refuse_offer(13),
        Some(instance) => OfferAnswer {
            answer: 0,
            offer: Offer {
                operation: op,
                start,
                instance,
            },
        },
    }
}

// Books an offer, from this table or from anywhere: places the operation at the start on the offered instance, if that
// is free in every slot that the operation would hold. The sheet's questions, 4, 10 to 12 and 17.
pub fn book(sheet: Sheet, interval: usize, table: Table, offer: Offer) -> PlaceAnswer
    ensures { BookAt sheet interval table offer result }
{
    let op = offer.operation;
    let start = offer.start;
    let instance = offer.instance;
    if let Err(refusal) = asked(sheet, interval, table, op, start) {
        return refuse(refusal.number(), table);
    }
    if !placing_table::is_free(sheet, interval, table, op, start, instance) {
        return refuse(17, table);
    }
    let mut entries = table.entries;
    entries[op] = Placement {
        placed: true,
        start,
        instance,
    };
    PlaceAnswer {
        answer: 0,
        instance,
        table: Table { entries },
    }
}

// ---- placing

// Places an operation at a start on the lowest instance that is free in every slot that it would hold: what is offered
// is booked.
pub fn place(sheet: Sheet, interval: usize, table: Table, op: usize, start: usize) -> PlaceAnswer
    ensures { PlaceAt sheet interval table op start result }
{
    let made = make_offer(sheet, interval, table, op, start);
    if made.answer != 0 {
        return refuse(made.answer, table);
    }
    let offer = made.offer;
    book(sheet, interval, table, offer)
}

// ---- placing into a kept table

// What a placing answers besides the table.
// Kept: leastplan_placed of C is this struct.
#[repr(C)]
#[derive(Clone, Copy)]
pub struct Outcome {
    pub answer: usize,
    pub instance: usize,
}

// What a placing answers, and the one entry that it stores: the operation's or, with a refusal, one as it stands.
#[derive(Clone, Copy)]
struct Change {
    answer: usize,
    instance: usize,
    at: usize,
    entry: Placement,
}

// The place of an operation's entry; 0 for an operation that the table lacks.
fn entry_place(op: usize) -> usize
    ensures { (result < most_operations) × (op < most_operations → result ≡ op) }
{
    if op < MOST_OPERATIONS {
        return op;
    }
    0
}

// A placing as the change of that one entry.
fn entry_change(sheet: Sheet, interval: usize, table: Table, op: usize, start: usize) -> Change
    ensures { (result.at < most_operations) × PlaceAt sheet interval table op start (changed table result) }
{
    let r = place(sheet, interval, table, op, start);
    let after = r.table;
    let at = entry_place(op);
    let entry = after.entries[at];
    Change {
        answer: r.answer,
        instance: r.instance,
        at,
        entry,
    }
}

// The same on a table that the caller keeps, in Rattle or in C (include/leastplan_placing.h): it stores the operation's
// start and instance there; with a refusal the table holds what it held.
pub fn leastplan_place_into(
    table: &mut Table,
    sheet: Sheet,
    interval: usize,
    op: usize,
    start: usize,
) -> Outcome
    ensures { PlaceAt sheet interval table.old op start (whole result table.new) }
{
    let t = *table;
    let r = entry_change(sheet, interval, t, op, start);
    let at = r.at;
    table.entries[at] = r.entry;
    Outcome {
        answer: r.answer,
        instance: r.instance,
    }
}
