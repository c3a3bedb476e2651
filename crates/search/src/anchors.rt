// The anchored questions: whether the operations that the lags hold near one operation have no plan even alone, with
// that operation put at one place. Each is a short search.
// The nodes of a question, which operations are asked about and in what order promise nothing: they cost or save time.
ghost use Rattle.std.specs.Prelude.{◌≤◌, ◌<◌, IfSome};
ghost use Rattle.sizes.specs.Sizes.{most_operations};
ghost use Rattle.task.specs.Plan.{TaskOk};
ghost use Rattle.relax.specs.Relax.{Cluster};
ghost use Rattle.search_steps.specs.Steps.{Denied};

use crate::search;
use search_steps::{Blame, Marks, denies};
use sizes::MOST_OPERATIONS;
use task::Task;

// The nodes of an anchored question.
const ANCHORED_NODES: u32 = 1024;

// Whether at most one operation is in the cluster. No promise: such a cluster has nothing to tell.
fn alone(cluster: Marks) -> bool {
    cluster.iter().filter(|inside| **inside).count() < 2
}

// Whether the cluster of operation i has no plan by itself, wherever it stands.
fn anchor_denies(p: Task, i: usize, cluster: Marks) -> bool
    requires { TaskOk p × (i < p.ops) × Cluster p i cluster }
    ensures { Denied p result }
{
    if alone(cluster) {
        return false;
    }
    let q = anchor::anchored(p, i, cluster);
    let d = anchor::anchor_rows(i, cluster);
    let f = search(
        q,
        d,
        [true; MOST_OPERATIONS],
        [1; MOST_OPERATIONS],
        Some(ANCHORED_NODES),
    );
    denies(f.answer)
}

// The most blamed operation that is not done, the first of several.
fn most_blamed(done: Marks, blame: Blame, ops: usize) -> Option<usize>
    requires { ops ≤ most_operations }
    ensures { IfSome result (λ i. i < ops) }
{
    let mut most: Option<usize> = None;
    for i in 0..ops {
        let more = match most {
            Some(best) => blame[best] < blame[i],
            None => true,
        };
        if more && !done[i] {
            most = Some(i);
        }
    }
    most
}

// Whether some cluster has no plan by itself: one question for each cluster, the most blamed operation first.
pub fn anchors_deny(p: Task, blame: Blame) -> bool
    requires { TaskOk p }
    ensures { Denied p result }
{
    let mut done = [false; MOST_OPERATIONS];
    for _ in 0..p.ops {
        let Some(i) = most_blamed(done, blame, p.ops) else {
            return false;
        };
        let cluster = anchor::cluster(p, i);
        if anchor_denies(p, i, cluster) {
            return true;
        }
        let next = narrow::marked_in_either(done, cluster);
        done = next;
    }
    false
}
