// Reads a plan's lines as leastplan prints them: `answer=0`, `interval=N`, then lines `at=t,u`, and nothing more. It
// knows no sheet: whether there is a line for each operation, and whether the plan keeps the rules, is asked elsewhere.
#![tactic(auto)]

ghost use Rattle.std.specs.Prelude.{◌≡◌, [], drop, IfOk};
ghost use Rattle.sizes.specs.Sizes.{most_operations};
ghost use Rattle.plan_lines.specs.Lines.{plan_of, places_from, seen, LinesFit};

use scan::read_plain;
use sizes::MOST_OPERATIONS;

// The number of the first line `at=`, after `answer=0` and `interval=N`.
const FIRST_AT: usize = 3;

// The lines of a plan, at most.
pub const MOST_LINES: usize = FIRST_AT - 1 + MOST_OPERATIONS;

// The interval that a plan's lines name, and its starts and instances, one of each per line `at=`; 0 past them.
// Kept: arrays with their count, since the library has no heap; two of them, since `verify` takes the starts and the
// instances of a plan apart.
#[derive(Clone, Copy)]
pub struct PlanLines {
    pub interval: usize,
    pub count: usize,
    pub starts: [usize; MOST_OPERATIONS],
    pub instances: [usize; MOST_OPERATIONS],
}

// The lines `at=t,u` from `at` to the end of the bytes, of a plan at that interval; or the number of the line at fault.
#[tactic(auto, using(crate::specs::Steps::start, crate::specs::Steps::over, crate::specs::Steps::stops, crate::specs::Steps::turn, crate::specs::Steps::done, crate::specs::Steps::fits))]
fn read_places(s: &[u8], at: usize, interval: usize) -> Result<PlanLines, usize>
    ensures result_value { seen result ≡ places_from most_operations interval [] [] (drop at s.now) }
    ensures lines_fit { IfOk result (λ r. LinesFit r) }
{
    let mut starts = [0usize; MOST_OPERATIONS];
    let mut instances = [0usize; MOST_OPERATIONS];
    let mut p = at;
    let mut i: usize = 0;
    while p < s.len() {
        if MOST_OPERATIONS <= i {
            return Err(FIRST_AT + i);
        }
        let Some(line) = read_plain(s, p, b"at=", 2) else {
            return Err(FIRST_AT + i);
        };
        starts[i] = line.first;
        instances[i] = line.second;
        p = line.next;
        i += 1;
    }
    Ok(PlanLines {
        interval,
        count: i,
        starts,
        instances,
    })
}

// The plan whose lines these bytes are; or the number, from 1, of the first line that is not as it must be or is past
// the most.
#[tactic(auto, using(crate::specs::Steps::no_answer, crate::specs::Steps::another_answer, crate::specs::Steps::no_interval, crate::specs::Steps::places))]
pub fn read(bytes: &[u8]) -> Result<PlanLines, usize>
    ensures result_value { seen result ≡ plan_of bytes.now }
    ensures lines_fit { IfOk result (λ r. LinesFit r) }
{
    let answer = read_plain(bytes, 0, b"answer=", 1).ok_or(1usize)?;
    if answer.first != 0 {
        return Err(1);
    }
    let interval = read_plain(bytes, answer.next, b"interval=", 1).ok_or(2usize)?;
    read_places(bytes, interval.next, interval.first)
}
