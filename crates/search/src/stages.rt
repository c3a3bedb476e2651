// Some plan, in stages: a short search, then the questions that ask less and may tell at once that there is none, then
// the search to its end.
// The nodes of each, the order of the questions and where they are asked promise nothing: they cost or save time.
ghost use Rattle.std.specs.Prelude.{◌<◌};
ghost use Rattle.sizes.specs.Sizes.{most_types};
ghost use Rattle.task.specs.Plan.{TaskOk, PlanOf};
ghost use Rattle.search_steps.specs.Steps.{Emptied, Settled};

use crate::anchors::anchors_deny;
use crate::{search, whole};
use domain::Domain;
use search_steps::{Blame, Starts, denies};
use sizes::{MOST_OPERATIONS, MOST_TYPES};
use task::Task;

// The nodes of the first search.
const FIRST_NODES: u32 = 64;

// The nodes of a question at a coarser interval.
const COARSE_NODES: u32 = 16384;

// Such a question is asked where a type has fewer seats free: slots of its instances that no operation needs.
const SPARE_SEATS: usize = 2;

// Whether the task at the interval m has no plan in the domain.
fn coarse_denies(p: Task, d: Domain, m: usize) -> bool
    requires { TaskOk p × (0 < m) }
    ensures { Emptied p d result }
{
    if p.interval % m != 0 {
        return false;
    }
    let q = relax::coarse(p, m);
    let f = search(
        q,
        d,
        [true; MOST_OPERATIONS],
        [1; MOST_OPERATIONS],
        Some(COARSE_NODES),
    );
    denies(f.answer)
}

// Whether a limited type that stays busy for one slot has few seats free. No promise.
fn tight_type(p: Task, kind: usize) -> bool
    requires { TaskOk p × (kind < most_types) }
{
    if p.instances[kind] == 0 || p.busy[kind] != 1 {
        return false;
    }
    let needed = task::count_of(&p.resource, p.ops, kind);
    p.instances[kind] * p.interval < needed + SPARE_SEATS
}

// Whether some type has few seats free. No promise: only then is a question at a coarser interval worth its cost.
fn tight(p: Task) -> bool
    requires { TaskOk p }
{
    (0..MOST_TYPES).any(|kind| tight_type(p, kind))
}

// Whether a question that asks less tells that the domain has no plan.
fn denied(p: Task, d: Domain, blame: Blame) -> bool
    requires { TaskOk p }
    ensures { Emptied p d result }
{
    anchors_deny(p, blame) || tight(p) && (coarse_denies(p, d, 2) || coarse_denies(p, d, 3))
}

// Some plan in a narrowed domain, or none. The last search begins with new failure counts. Left free: which plan it is.
pub fn some_plan(p: Task, d: Domain) -> Option<Starts>
    requires { TaskOk p }
    ensures { Settled (PlanOf p) p.ops d result }
{
    let first = search(
        p,
        d,
        [false; MOST_OPERATIONS],
        [1; MOST_OPERATIONS],
        Some(FIRST_NODES),
    );
    match first.answer {
        Ok(found) => found,
        Err(_) => {
            if denied(p, d, first.blame) {
                None
            } else {
                whole(p, d, [false; MOST_OPERATIONS])
            }
        },
    }
}
