// The services on plans: the plan at an interval and the least interval.
#![tactic(auto)]

ghost use Rattle.std.specs.Prelude.{◌≡◌};
ghost use Rattle.sheet.specs.Sheet.{graph_of};
ghost use Rattle.plan.specs.Answers.{PlanAt, LeastInterval, IfPlan, refused};
ghost use Rattle.schedule.specs.Served.{FeasibleAt};

use dependence::Graph;
use plan::{IntervalAnswer, PlanAnswer};
use sheet::Sheet;
use sizes::MOST_OPERATIONS;

// A refusal: its number, and 0 for every other number.
fn refusal(answer: usize) -> PlanAnswer
    ensures { result ≡ refused answer }
{
    PlanAnswer {
        answer,
        starts: [0; MOST_OPERATIONS],
        instances: [0; MOST_OPERATIONS],
        loop_length: 0,
        loop_edges: [0; MOST_OPERATIONS],
    }
}

// Question 6: the first plan, or that there is none. The graph is the sheet's.
fn first_plan(sheet: Sheet, graph: Graph, interval: usize) -> PlanAnswer
    requires { FeasibleAt sheet interval × (graph ≡ graph_of sheet) }
    ensures { IfPlan sheet interval result }
{
    let lags = lags::lags(graph, interval);
    let task = model::build::task_of(sheet, graph, interval, lags);
    let domain = model::allowed::allowed_domain(sheet, interval);
    let found = search::first_plan(task, domain);
    if let Some(x) = found {
        let n = sheet.op_count;
        let starts = arrays::cut(n, x);
        let resource = task.resource;
        let limits = task.instances;
        let busy = task.busy;
        let u = instances::instances(resource, limits, busy, starts, task.ops, task.interval);
        let instances = arrays::cut(n, u);
        return PlanAnswer {
            answer: 0,
            starts,
            instances,
            loop_length: 0,
            loop_edges: [0; MOST_OPERATIONS],
        };
    }
    refusal(6)
}

// The plan at an interval that comes before every other, or why there is none: the sheet's refusal, 4, 5 with the first
// bad closed walk, 6. Below the resource bound a count tells that there is none.
pub fn plan_at(sheet: Sheet, interval: usize) -> PlanAnswer
    ensures { PlanAt sheet interval result }
{
    if let Err(reason) = questions::asked(sheet, interval) {
        return refusal(reason.number());
    }
    let graph = sheet_graph::graph_of(sheet);
    let walk = constraints::bad_walk(graph, interval);
    if walk.answer == 5 {
        let loop_edges = walk.loop_edges;
        return PlanAnswer {
            answer: 5,
            starts: [0; MOST_OPERATIONS],
            instances: [0; MOST_OPERATIONS],
            loop_length: walk.loop_length,
            loop_edges,
        };
    }
    let bound = plan::resource_bound(sheet);
    if interval < bound.value {
        return refusal(6);
    }
    first_plan(sheet, graph, interval)
}

// The least interval from 1 to the cap that has a plan, or why there is none: the sheet's refusal, 7.
pub fn least_interval(sheet: Sheet) -> IntervalAnswer
    ensures { LeastInterval sheet result }
{
    if let Err(reason) = questions::answer(sheet) {
        return IntervalAnswer {
            answer: reason.number(),
            interval: 0,
        };
    }
    let cap = sheet.cap;
    let mut interval: usize = 1;
    while interval <= cap {
        let plan = plan_at(sheet, interval);
        let found = plan.answer == 0;
        if found {
            return IntervalAnswer {
                answer: 0,
                interval,
            };
        }
        interval += 1;
    }
    IntervalAnswer {
        answer: 7,
        interval: 0,
    }
}
