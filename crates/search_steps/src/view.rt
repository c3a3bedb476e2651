// One look at a narrowed domain: the answer where its least starts give one, or an operation to split.
ghost use Rattle.std.specs.Prelude.{◌≤◌};
ghost use Rattle.sizes.specs.Sizes.{most_operations};
ghost use Rattle.domain.specs.Split.{LeastStarts};
ghost use Rattle.task.specs.Plan.{TaskOk, PlanOf};
ghost use Rattle.search_steps.specs.Steps.{Started, Loose, Looked};

use crate::choice::choose;
use crate::{Blame, Starts};
use domain::Domain;
use sizes::{MOST_OPERATIONS, MOST_STARTS};
use task::Task;

// A plan in the domain, or none; or an operation to split into its classes by a modulus.
#[derive(Clone, Copy)]
pub enum View {
    Answered(Option<Starts>),
    Split { op: usize, modulus: usize },
}

// The least start of each operation.
pub fn least_starts(d: Domain, ops: usize) -> Starts
    requires { ops ≤ most_operations }
    ensures { LeastStarts ops d result }
{
    let mut x = [0; MOST_OPERATIONS];
    for i in 0..ops {
        x[i] = domain::least(d[i]);
    }
    x
}

// Whether each operation has a start.
pub fn started(x: Starts, ops: usize) -> bool
    requires { ops ≤ most_operations }
    ensures { Started ops x result }
{
    for i in 0..ops {
        if MOST_STARTS <= x[i] {
            return false;
        }
    }
    true
}

// The first operation with two starts.
fn first_loose(d: Domain, x: Starts, ops: usize) -> Option<usize>
    requires { ops ≤ most_operations }
    ensures { Loose ops d x result }
{
    for i in 0..ops {
        if domain::other_class(d[i], x[i], MOST_STARTS) {
            return Some(i);
        }
    }
    None
}

// An answer for a narrowed domain, or an operation to split.
pub fn look(p: Task, d: Domain, blame: Blame) -> View
    requires { TaskOk p }
    ensures { Looked (PlanOf p) p.ops d result }
{
    let x = least_starts(d, p.ops);
    if !started(x, p.ops) {
        return View::Answered(None);
    }
    if task::is_plan(p, x) {
        return View::Answered(Some(x));
    }
    if let Some(op) = choose(d, p.ops, p.interval, blame) {
        if domain::other_class(d[op], x[op], p.interval) {
            return View::Split {
                op,
                modulus: p.interval,
            };
        }
    }
    match first_loose(d, x, p.ops) {
        Some(op) => View::Split {
            op,
            modulus: MOST_STARTS,
        },
        None => View::Answered(None),
    }
}
