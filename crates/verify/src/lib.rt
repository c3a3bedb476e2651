// Whether starts and instances that somebody hands in are a plan: each rule of `plan/specs/Rules` by a test of its own.
// `is_plan` puts the questions about the sheet and the interval first. `holds`, and `first_broken`, which names the
// first operation that breaks a rule, are for services that have put them: both ask for a sheet in range and an
// interval up to the cap. Callers today: of `holds` `is_plan`, of `first_broken` `judge::judge` and its line at fault,
// each once `questions::asked` has answered 0.
#![tactic(auto)]

ghost use Rattle.laws.specs.Entry.{vec};
ghost use Rattle.laws.specs.Says.{Says};
ghost use Rattle.sheet.specs.Sheet.{InRange, Interval};
ghost use Rattle.plan.specs.Rules.{Plan};
ghost use Rattle.verify.specs.Check.{CheckedAt};

mod broken; // broken.rt: the rules among the first operations
mod each_operation;
mod edges;
mod pairs;

pub use broken::first_broken;
use sheet::Sheet;
use sizes::MOST_OPERATIONS;

// The answer of a check: 0 or a refusal, and with 0 whether it is a plan.
#[repr(C)]
#[derive(Clone, Copy)]
pub struct Checked {
    pub answer: usize,
    pub plan: bool,
}

// Whether the starts and instances are a plan at the interval. Entries past the operations play no part.
pub fn holds(
    sheet: Sheet,
    interval: usize,
    starts: [usize; MOST_OPERATIONS],
    instances: [usize; MOST_OPERATIONS],
) -> bool
    requires { InRange sheet × Interval sheet interval }
    ensures { Says (Plan sheet interval (vec starts) (vec instances)) result }
{
    broken::kept_up_to(sheet, interval, starts, instances, sheet.op_count)
}

// The same, after the questions about the sheet and question 4.
pub fn is_plan(
    sheet: Sheet,
    interval: usize,
    starts: [usize; MOST_OPERATIONS],
    instances: [usize; MOST_OPERATIONS],
) -> Checked
    ensures { CheckedAt sheet interval (vec starts) (vec instances) result }
{
    if let Err(refusal) = questions::asked(sheet, interval) {
        return Checked {
            answer: refusal.number(),
            plan: false,
        };
    }
    Checked {
        answer: 0,
        plan: holds(sheet, interval, starts, instances),
    }
}
