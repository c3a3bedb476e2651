// Tasks that ask less than a task does: at a coarser interval, and of one cluster alone, wherever it stands (`anchor`).
// Where such a one has no plan the task has none, and it is found out sooner.
// An inner layer, a crate of its own for the check's time: `coarse` asks for a task whose numbers are within its arrays
// (`TaskOk`), and for an interval that divides the task's.
// Caller: `search`, with the task of schedule::plan_at, when it has not answered after some steps.
#![tactic(auto)]

ghost use Rattle.std.specs.Prelude.{◌≡◌, ◌%◌, ◌≤◌, ◌<◌};
ghost use Rattle.sizes.specs.Sizes.{most_operations, most_intervals};
ghost use Rattle.task.specs.Plan.{TaskOk};
ghost use Rattle.relax.specs.Relax.{Relaxed, Limit, Limits};

use sizes::{MOST_OPERATIONS, MOST_TYPES};
use task::Task;

// The instances of a type, where one slot stands for several; 0 is unlimited. So is a type that stays busy for more
// than a slot, and no type needs more instances than there are operations.
fn limit(instances: usize, busy: usize, slots: usize) -> usize
    requires { (instances ≤ most_operations) × (slots ≤ most_intervals) }
    ensures { Limit instances busy slots result }
{
    if busy == 1 {
        let total = instances * slots;
        total.min(MOST_OPERATIONS)
    } else {
        0
    }
}

// The same for each type of a task.
fn limits(p: Task, slots: usize) -> [usize; MOST_TYPES]
    requires { TaskOk p × (slots ≤ most_intervals) }
    ensures { Limits p slots result }
{
    let mut out = [0usize; MOST_TYPES];
    for kind in 0..MOST_TYPES {
        out[kind] = limit(p.instances[kind], p.busy[kind], slots);
    }
    out
}

// The task at the interval m, which divides its own: each slot stands for as many as m goes into the interval. Left
// free: how much less it asks.
pub fn coarse(p: Task, m: usize) -> Task
    requires { TaskOk p × (0 < m) × (p.interval % m ≡ 0) }
    ensures { Relaxed p result }
{
    let mut q = p;
    q.interval = m;
    q.instances = limits(p, p.interval / m);
    q
}
