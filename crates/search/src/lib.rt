// A plan in a domain, or none: narrow, try the least starts, split; and the first plan of all. Where a short search
// does not tell, questions that ask less (`relax`) may tell that there is none.
// An inner layer, a crate of its own for the check's time: `search` and `first_plan` ask for a task whose numbers are
// within its arrays (`TaskOk`).
// Caller: schedule::plan_at, which proves `TaskOk` from the sheet and from what `dependence` promises.
#![tactic(auto)]

ghost use Rattle.std.specs.Prelude.{◌≡◌, ◌<◌, true, is_some};
ghost use Rattle.domain.specs.Domain.{FirstIn};
ghost use Rattle.domain.specs.First.{Good, Lowered};
ghost use Rattle.task.specs.Plan.{TaskOk, PlanOf};
ghost use Rattle.search_steps.specs.Steps.{Budgeted, Settled};
ghost use Rattle.search.specs.Search.{FirstPlan};

mod anchors;
mod stages;

use domain::Domain;
use search_steps::{Blame, Found, Marks, Starts, View, blamed, denies, eager, fewer, look, single};
use sizes::{MOST_OPERATIONS, MOST_STARTS};
use stages::some_plan;
use task::Task;

// A plan in the domain, or none; `dirty` marks the rows that are new to the rules. A search with a budget is over after
// so many nodes, and then it says nothing. A node is one call.
// Left free: which plan it is, `blame`, which only guides the search, and how much of the budget is left.
pub fn search(p: Task, ok: Domain, dirty: Marks, blame: Blame, budget: Option<u32>) -> Found
    requires { TaskOk p }
    ensures answer { Budgeted (PlanOf p) p.ops ok (is_some budget) result.answer }
    ensures left { is_some result.left ≡ is_some budget }
{
    let mut rest = match fewer(budget) {
        Ok(rest) => rest,
        Err(over) => {
            return Found {
                answer: Err(over),
                blame,
                left: budget,
            };
        },
    };
    let d = narrow::narrow(p, ok, dirty);
    let (i, m) = match look(p, d, blame) {
        View::Answered(found) => {
            return Found {
                answer: Ok(found),
                blame,
                left: rest,
            };
        },
        View::Split { op, modulus } => (op, modulus),
    };
    let mut row = d[i];
    let mut counts = blame;
    'classes: loop {
        let t = domain::least(row);
        if t == MOST_STARTS {
            return Found {
                answer: Ok(None),
                blame: counts,
                left: rest,
            };
        }
        let mut c = d;
        c[i] = domain::only_class(row, t % m, m);
        let g = search(p, c, single(i), counts, rest);
        let none = denies(g.answer);
        if !none {
            return g;
        }
        let after = blamed(g.blame, i);
        counts = after;
        rest = g.left;
        let others = domain::without_class(row, t % m, m);
        row = others;
    }
}

// A plan in the domain, or none, without a bound.
fn whole(p: Task, ok: Domain, dirty: Marks) -> Option<Starts>
    requires { TaskOk p }
    ensures { Settled (PlanOf p) p.ops ok result }
{
    match search(p, ok, dirty, [1; MOST_OPERATIONS], None).answer {
        Ok(found) => found,
        // It does not come: without a bound no search is over.
        Err(_) => None,
    }
}

// A plan in the domain whose start of i is least, from some plan in it.
fn lowered(p: Task, d: Domain, x: Starts, i: usize) -> Starts
    requires { TaskOk p × (i < p.ops) × Good (PlanOf p) p.ops d x }
    ensures { Lowered (PlanOf p) p.ops d i result }
{
    let low = domain::least(d[i]);
    let mut best = x;
    while best[i] != low {
        let mut c = d;
        c[i] = domain::below(d[i], best[i]);
        let Some(lower) = whole(p, c, single(i)) else {
            return best;
        };
        best = lower;
    }
    best
}

// The first plan in a narrowed domain, from some plan in it: each operation's start is lowered in turn.
fn from_plan(p: Task, ok: Domain, some: Starts) -> Starts
    requires { TaskOk p × Good (PlanOf p) p.ops ok some }
    ensures { FirstIn (PlanOf p) p.ops ok true result }
{
    let mut x = some;
    let mut d = ok;
    for i in 0..p.ops {
        let y = lowered(p, d, x, i);
        d[i] = domain::only(y[i]);
        let e = narrow::narrow(p, d, single(i));
        d = e;
        x = y;
    }
    x
}

// The first plan in the domain by the order of starts, or none. Left free: the starts past `ops`; schedule::plan_at
// puts 0 there.
pub fn first_plan(p: Task, ok: Domain) -> Option<Starts>
    requires { TaskOk p }
    ensures { FirstPlan (PlanOf p) p.ops ok result }
{
    let d = narrow::narrow(p, ok, [true; MOST_OPERATIONS]);
    let first = eager(p, d);
    if first.is_some() {
        return first;
    }
    let some = some_plan(p, d)?;
    Some(from_plan(p, d, some))
}
