// C calls on the bytes of a sheet: least interval, plan text, slot order, page, judgement. They read the sheet and call
// the service; include/leastplan.h describes them.
#![tactic(auto)]

ghost use Rattle.judge.specs.Bytes.{JudgeOf};
ghost use Rattle.host.specs.Calls.{LeastOf, PlanTextOf, SlotOrderOf, PageOf};

use plan::IntervalAnswer;
use text::Written;

// The slot order, or why there is none. A C call gives 5 without the edges.
#[repr(C)]
#[derive(Clone, Copy)]
pub struct OrderAnswer {
    pub answer: usize,
    pub order: usize,
}

#[unsafe(no_mangle)]
pub extern "C" fn leastplan_least_interval(sheet: &[u8]) -> IntervalAnswer
    ensures { LeastOf sheet.now result }
{
    let read = reader::read(sheet);
    let answer = read.answer;
    if answer != 0 {
        return IntervalAnswer {
            answer,
            interval: 0,
        };
    }
    let numbers = read.sheet;
    schedule::least_interval(numbers)
}

#[unsafe(no_mangle)]
pub extern "C" fn leastplan_plan_text(sheet: &[u8], interval: usize, out: &mut [u8]) -> Written
    ensures { PlanTextOf sheet.now interval out.old result out.new }
{
    let read = reader::read(sheet);
    let answer = read.answer;
    if answer != 0 {
        return Written { answer, count: 0 };
    }
    let numbers = read.sheet;
    let text = report::plan_text(numbers, interval, out);
    Written {
        answer: text.answer,
        count: text.count,
    }
}

#[unsafe(no_mangle)]
pub extern "C" fn leastplan_slot_order(sheet: &[u8], interval: usize, pair: usize) -> OrderAnswer
    ensures { SlotOrderOf sheet.now interval pair result }
{
    let read = reader::read(sheet);
    let answer = read.answer;
    if answer != 0 {
        return OrderAnswer { answer, order: 0 };
    }
    let numbers = read.sheet;
    let found = slot_order::slot_order(numbers, interval, pair);
    OrderAnswer {
        answer: found.answer,
        order: found.order,
    }
}

#[unsafe(no_mangle)]
pub extern "C" fn leastplan_page(
    sheet: &[u8],
    interval: usize,
    starts: &[usize],
    instances: &[usize],
    out: &mut [u8],
) -> Written
    ensures { PageOf sheet.now interval starts.now instances.now out.old (record { written = result; buffer = out.new }) }
{
    let read = reader::read(sheet);
    let refusal = read.answer;
    if refusal != 0 {
        return Written {
            answer: refusal,
            count: 0,
        };
    }
    let numbers = read.sheet;
    page::page(numbers, interval, starts, instances, out)
}

#[unsafe(no_mangle)]
pub extern "C" fn leastplan_judge(sheet: &[u8], answer: &[u8]) -> usize
    ensures { JudgeOf sheet.now answer.now result }
{
    let read = reader::read(sheet);
    let refusal = read.answer;
    if refusal != 0 {
        return refusal;
    }
    let numbers = read.sheet;
    judge::judge(numbers, answer)
}
