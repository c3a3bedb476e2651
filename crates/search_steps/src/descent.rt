// The first plan where it is easy: each operation in turn at its least start, with the domain narrowed after each.
// What comes out, if it is a plan, is the first one; else the search has to decide.
ghost use Rattle.std.specs.Prelude.{true, ◌<◌, IfSome};
ghost use Rattle.domain.specs.Domain.{Keeps, FirstIn};
ghost use Rattle.domain.specs.First.{Good};
ghost use Rattle.task.specs.Plan.{TaskOk, PlanOf};

use crate::Starts;
use crate::choice::single;
use crate::view::{least_starts, started};
use domain::Domain;
use sizes::MOST_STARTS;
use task::Task;

// The domain narrowed after its row of i changed, if it did.
fn narrowed(p: Task, d: Domain, i: usize, changed: bool) -> Domain
    requires { TaskOk p × (i < p.ops) }
    ensures { Keeps (PlanOf p) p.ops d result }
{
    if changed {
        narrow::narrow(p, d, single(i))
    } else {
        d
    }
}

// The least starts of the domain, if they are a plan.
fn least_plan(p: Task, d: Domain) -> Option<Starts>
    requires { TaskOk p }
    ensures { IfSome result (λ x. Good (PlanOf p) p.ops d x) }
{
    let x = least_starts(d, p.ops);
    if started(x, p.ops) && task::is_plan(p, x) {
        Some(x)
    } else {
        None
    }
}

// The first plan in a narrowed domain, or no answer: it is found as soon as the least starts are a plan.
pub fn eager(p: Task, ok: Domain) -> Option<Starts>
    requires { TaskOk p }
    ensures { IfSome result (λ x. FirstIn (PlanOf p) p.ops ok true x) }
{
    let mut d = ok;
    for i in 0..p.ops {
        let x = least_starts(d, p.ops);
        if !started(x, p.ops) {
            return None;
        }
        if task::is_plan(p, x) {
            return Some(x);
        }
        let several = domain::other_class(d[i], x[i], MOST_STARTS);
        d[i] = domain::only(x[i]);
        let e = narrowed(p, d, i, several);
        d = e;
    }
    least_plan(p, d)
}
