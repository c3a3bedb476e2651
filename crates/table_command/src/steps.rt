// The steps of a script, one after the other on a table, with the lines of their answers. Callers give a sheet and an
// interval that are accepted, a script all of whose lines are steps, and a buffer that takes the lines.
ghost use Rattle.std.specs.Prelude.{◌≡◌, ◌+◌, ◌*◌, ◌≤◌, length};
ghost use Rattle.text.specs.Lines.{lines_text};
ghost use Rattle.text.specs.Pasting.{Pasted};
ghost use Rattle.sheet.specs.Questions.{Accepted};
ghost use Rattle.table_script.specs.Script.{most_steps, script_of, fault_of};
ghost use Rattle.table_command.specs.Prints.{StepAt, answer_lines};
ghost use Rattle.table_command.specs.Widths.{step_most, SmallAnswer};
ghost use Rattle.table_command.specs.Turns.{Stepped, AllRan};

use crate::listing::put_line_at;
use placing::{Offer, PlaceAnswer};
use placing_table::Table;
use sheet::Sheet;
use table_script::{Step, read_step};
use text::Key;

// The place after the lines of the steps so far, and the table after them.
#[derive(Clone, Copy)]
pub struct Run {
    pub place: usize,
    pub table: Table,
}

// What a step answers. An offer leaves the table as it was.
fn take_step(sheet: Sheet, interval: usize, table: Table, step: Step) -> PlaceAnswer
    ensures { StepAt sheet interval table step result }
{
    match step {
        Step::Offer(op, start) => {
            let made = placing::make_offer(sheet, interval, table, op, start);
            let offer = made.offer;
            PlaceAnswer {
                answer: made.answer,
                instance: offer.instance,
                table,
            }
        }
        Step::Book(operation, start, instance) => {
            let offer = Offer {
                operation,
                start,
                instance,
            };
            placing::book(sheet, interval, table, offer)
        }
        Step::Place(op, start) => placing::place(sheet, interval, table, op, start),
    }
}

// The lines of a step's answer from `at` on, and the place after them.
fn put_answer(out: &mut [u8], at: usize, done: PlaceAnswer) -> usize
    requires { SmallAnswer done × (at + step_most ≤ length out.old) }
    ensures { Pasted at (lines_text (answer_lines done)) out.old out.new result }
{
    let after = put_line_at(out, at, text_line::count_line(Key::Answer, done.answer));
    if done.answer != 0 {
        return after;
    }
    put_line_at(
        out,
        after,
        text_line::count_line(Key::Instance, done.instance),
    )
}

// One step more: its lines from `at` on.
fn put_step(
    out: &mut [u8],
    at: usize,
    sheet: Sheet,
    interval: usize,
    table: Table,
    step: Step,
) -> Run
    requires { Accepted sheet interval × (at + step_most ≤ length out.old) }
    ensures { Stepped sheet interval table step at out.old out.new result }
{
    let done = take_step(sheet, interval, table, step);
    let place = put_answer(out, at, done);
    let after = done.table;
    Run {
        place,
        table: after,
    }
}

// All steps, on a table in which nothing is placed: their lines at the front of `out`.
pub fn put_steps(out: &mut [u8], sheet: Sheet, interval: usize, script: &[u8]) -> Run
    requires { Accepted sheet interval × (fault_of (script_of script.now) ≡ 0) × (step_most * most_steps ≤ length out.old) }
    ensures { AllRan sheet interval script.now out.old out.new result }
{
    let new = placing::new_table(sheet, interval);
    let mut table = new.table;
    let mut place = 0;
    let mut p: usize = 0;
    while p < script.len() {
        let Some((step, next)) = read_step(script, p) else {
            return Run { place, table };
        };
        let run = put_step(out, place, sheet, interval, table, step);
        place = run.place;
        table = run.table;
        p = next;
    }
    Run { place, table }
}
