// The text of plans: the lines that leastplan prints for an interval, and all that it prints for the bytes of a sheet.
#![tactic(auto)]

ghost use Rattle.std.specs.Prelude.{◌≡◌, ◌≤◌, length};
ghost use Rattle.text.specs.Text.{over};
ghost use Rattle.text.specs.Sizes.{three_digits};
ghost use Rattle.text.specs.Answers.{refusal_text};
ghost use Rattle.sheet.specs.Sheet.{InRange};
ghost use Rattle.report.specs.Print.{Run, Printed, room, Reported};
ghost use Rattle.report.specs.Bounds.{answer_most};
ghost use Rattle.report.specs.PlanText.{PlanText};
ghost use Rattle.report.specs.IntervalText.{IntervalText};
ghost use Rattle.report.specs.Printing.{Front};

use interval_lines::put_interval;
use sheet::Sheet;
use sizes::MOST_OPERATIONS;
use text::{Key, Written};

// Room for whatever leastplan prints.
pub const ROOM: usize = 8192;

// The count of bytes of a plan's text, or why there is none; with 5 the first bad closed walk.
#[repr(C)]
#[derive(Clone, Copy)]
pub struct PlanWritten {
    pub answer: usize,
    pub count: usize,
    pub loop_length: usize,
    pub loop_edges: [usize; MOST_OPERATIONS],
}

// The plan's text at the front of `out` and its count of bytes, or why there is none: the refusal of the plan at that
// interval, 5 with the first bad closed walk, or 9 where the whole text does not fit. With a refusal `out` stays as it
// was.
pub fn plan_text(sheet: Sheet, interval: usize, out: &mut [u8]) -> PlanWritten
    ensures { PlanText sheet interval out.old result out.new }
{
    let a = schedule::plan_at(sheet, interval);
    if a.answer != 0 {
        let loop_edges = a.loop_edges;
        return PlanWritten {
            answer: a.answer,
            count: 0,
            loop_length: a.loop_length,
            loop_edges,
        };
    }
    let written = put_interval(out, sheet, interval, a);
    PlanWritten {
        answer: written.answer,
        count: written.count,
        loop_length: 0,
        loop_edges: [0; MOST_OPERATIONS],
    }
}

// The lines that leastplan prints for that interval, with 0, 5 or 6, at the front of `out` and their count of bytes; or
// the sheet's refusal, 4, or 9 where they do not fit, and then `out` stays as it was.
pub fn interval_text(sheet: Sheet, interval: usize, out: &mut [u8]) -> Written
    ensures { IntervalText sheet interval out.old result out.new }
{
    if let Err(refusal) = questions::asked(sheet, interval) {
        return Written {
            answer: refusal.number(),
            count: 0,
        };
    }
    let a = schedule::plan_at(sheet, interval);
    put_interval(out, sheet, interval, a)
}

// The line `answer=` alone, and how many bytes it has.
fn put_answer(out: &mut [u8], answer: usize) -> usize
    requires { (answer ≤ three_digits) × (answer_most ≤ length out.old) }
    ensures value { result ≡ length (refusal_text answer) }
    ensures out_after { out.new ≡ over (refusal_text answer) out.old }
{
    text_line::put_line(out, text_line::count_line(Key::Answer, answer))
}

// The intervals from 1 up, until one has a plan.
fn run(out: &mut [u8], sheet: Sheet) -> usize
    requires { InRange sheet × (room ≤ length out.old) }
    ensures { Front (Run sheet 1) out.old out.new result }
{
    let mut at = 0;
    for interval in 1..sheet.cap + 1 {
        let a = schedule::plan_at(sheet, interval);
        at += interval_lines::fill(&mut out[at..], sheet, interval, a);
        if a.answer == 0 {
            return at;
        }
    }
    at + put_answer(&mut out[at..], 7)
}

// What leastplan prints for the bytes of a sheet.
fn print(out: &mut [u8], bytes: &[u8]) -> usize
    requires { room ≤ length out.old }
    ensures { Front (Printed bytes.now) out.old out.new result }
{
    let read = reader::read(bytes);
    let answer = read.answer;
    if answer != 0 {
        return put_answer(out, answer);
    }
    let sheet = read.sheet;
    run(out, sheet)
}

// All that leastplan prints, at the front of `out`, and its count of bytes; 9 where it does not fit, and then `out`
// stays as it was.
// `ROOM` bytes are always enough.
pub fn report(bytes: &[u8], out: &mut [u8]) -> Written
    ensures { Reported bytes.now out.old result out.new }
{
    let mut text = [0u8; ROOM];
    let count = print(&mut text, bytes);
    text_line::put_text(out, &text[..count])
}
