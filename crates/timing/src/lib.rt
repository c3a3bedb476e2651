// The timing services on a loop sheet: earliest starts (ASAP), separations (MinDist) and the recurrence bound (RecMII).
// Each puts its questions in order and asks the dependence part about the sheet's graph.
#![tactic(auto)]

ghost use Rattle.std.specs.Prelude.{◌≡◌};
ghost use Rattle.timing.specs.Answers.{WalkAt, StartsAt, SeparationsAt, RecurrenceAt, without_loop, starts_refused};
ghost use Rattle.timing.specs.Floors.{Floors};

use constraints::{BadWalk, Bound, Starts};
use sheet::{Operation, Sheet};
use sizes::MOST_OPERATIONS;

fn without_loop(answer: usize) -> BadWalk
    ensures { result ≡ without_loop answer }
{
    BadWalk {
        answer,
        loop_length: 0,
        loop_edges: [0; MOST_OPERATIONS],
    }
}

fn starts_refused(answer: usize) -> Starts
    ensures { result ≡ starts_refused answer }
{
    Starts {
        answer,
        starts: [0; MOST_OPERATIONS],
        loop_length: 0,
        loop_edges: [0; MOST_OPERATIONS],
    }
}

// The sheet's questions, 4 and 5: 0 where there is no bad closed walk, and 5 with the first one. It is the answer
// number of `separations` too.
pub fn bad_walk(sheet: Sheet, interval: usize) -> BadWalk
    ensures { WalkAt sheet interval result }
{
    if let Err(refusal) = questions::asked(sheet, interval) {
        return without_loop(refusal.number());
    }
    constraints::bad_walk(sheet_graph::graph_of(sheet), interval)
}

// The floor of each start: the first clock of the operation's window.
fn window_starts(ops: [Operation; MOST_OPERATIONS]) -> [usize; MOST_OPERATIONS]
    ensures { Floors ops result }
{
    let mut floor = [0usize; MOST_OPERATIONS];
    for i in 0..MOST_OPERATIONS {
        let op = ops[i];
        floor[i] = op.lo;
    }
    floor
}

// The least starts, each at least the first clock of its window, that meet every dependence; they may lie past the last
// clock of their windows and past the horizon, as may their results. Or the sheet's refusal, 4, or 5 with the first bad
// closed walk, in which windows play no part.
pub fn earliest_starts(sheet: Sheet, interval: usize) -> Starts
    ensures { StartsAt sheet interval result }
{
    if let Err(refusal) = questions::asked(sheet, interval) {
        return starts_refused(refusal.number());
    }
    let ops = sheet.ops;
    constraints::earliest(sheet_graph::graph_of(sheet), interval, window_starts(ops))
}

// The separation table: each cell the greatest sum over walks of at least one edge, or the mark, whatever the horizon
// and the windows. All 0 where `bad_walk` refuses.
pub fn separations(sheet: Sheet, interval: usize) -> [[i32; MOST_OPERATIONS]; MOST_OPERATIONS]
    ensures { SeparationsAt sheet interval result }
{
    if questions::asked(sheet, interval).is_err() {
        return [[0; MOST_OPERATIONS]; MOST_OPERATIONS];
    }
    constraints::separations(sheet_graph::graph_of(sheet), interval)
}

// The least interval in 1 to the cap without a bad closed walk, whatever the horizon and the windows; or the sheet's
// refusal, or 8.
pub fn recurrence_bound(sheet: Sheet) -> Bound
    ensures { RecurrenceAt sheet result }
{
    if let Err(refusal) = questions::answer(sheet) {
        return Bound {
            answer: refusal.number(),
            value: 0,
        };
    }
    constraints::recurrence_bound(sheet_graph::graph_of(sheet), sheet.cap)
}
