// The task of one cluster alone: the operations whose lags hold them within REACH of one operation, the anchor, which
// is put at the start ANCHOR. It forgets where a plan stands, so that one question answers for every place.
// An inner layer, a crate of its own for the check's time: `cluster` and `anchored` ask for a task whose numbers are
// within its arrays (`TaskOk`), and for an operation of it. Caller: `search`, with the task of schedule::plan_at.
#![tactic(auto)]

ghost use Rattle.std.specs.Prelude.{◌≤◌, ◌<◌};
ghost use Rattle.sizes.specs.Sizes.{most_operations};
ghost use Rattle.task.specs.Plan.{TaskOk};
ghost use Rattle.relax.specs.Relax.{Close, Cluster, InnerType, InnerTypes, InnerLag, InnerLags, Anchored, AnchorRow, AnchorRows};

use domain::{Domain, Row};
use sizes::{MOST_OPERATIONS, MOST_STARTS};
use task::{NO_TYPE, PAIRS, Task};

// Where the anchor is put: as many starts before it as from it on.
const ANCHOR: usize = MOST_STARTS / 2;

// How far from the anchor a cluster goes, so that all its starts are below MOST_STARTS.
const REACH: i32 = ANCHOR as i32 - 1;

// The lag to a start that is at most so far before.
const REACH_BACK: i32 = -REACH;

// A lag that asks nothing of starts below MOST_STARTS.
const NO_LAG: i32 = -(MOST_STARTS as i32);

// Whether two operations are one, or their lags hold them within REACH of each other.
fn close(same: bool, there: i32, back: i32) -> bool
    ensures { Close same there back result }
{
    same || REACH_BACK <= there && REACH_BACK <= back
}

// The operations within REACH of operation i in every plan, as far as the lags tell. Left free: which of them it names.
pub fn cluster(p: Task, i: usize) -> [bool; MOST_OPERATIONS]
    requires { TaskOk p × (i < p.ops) }
    ensures { Cluster p i result }
{
    let mut c = [false; MOST_OPERATIONS];
    for j in 0..p.ops {
        let there = i * MOST_OPERATIONS + j;
        let back = j * MOST_OPERATIONS + i;
        c[j] = close(i == j, p.lag[there], p.lag[back]);
    }
    c
}

// The type of an operation in the cluster; none elsewhere.
fn inner_type(inside: bool, resource: usize) -> usize
    ensures { InnerType inside resource result }
{
    if inside { resource } else { NO_TYPE }
}

// The types of the operations of the cluster; none elsewhere.
fn inner_types(
    count: usize,
    c: [bool; MOST_OPERATIONS],
    resource: [usize; MOST_OPERATIONS],
) -> [usize; MOST_OPERATIONS]
    requires { count ≤ most_operations }
    ensures { InnerTypes count c resource result }
{
    let mut out = [NO_TYPE; MOST_OPERATIONS];
    for j in 0..count {
        out[j] = inner_type(c[j], resource[j]);
    }
    out
}

// The lag of two operations in the cluster; one that asks nothing elsewhere.
fn inner_lag(from: bool, to: bool, lag: i32) -> i32
    ensures { InnerLag from to lag result }
{
    if from && to { lag } else { NO_LAG }
}

// The lags within the cluster, row by row.
fn inner_lags(c: [bool; MOST_OPERATIONS], lag: [i32; PAIRS]) -> [i32; PAIRS]
    ensures { InnerLags c lag result }
{
    let mut out = [0i32; PAIRS];
    for k in 0..PAIRS {
        out[k] = inner_lag(c[k / MOST_OPERATIONS], c[k % MOST_OPERATIONS], lag[k]);
    }
    out
}

// The pairs in the cluster that are worth a look: they were so before, or one of the two is the anchor. No promise.
fn inner_near(c: [bool; MOST_OPERATIONS], near: [bool; PAIRS], i: usize) -> [bool; PAIRS] {
    let mut out = near;
    for (k, pair) in out.iter_mut().enumerate() {
        let a = k / MOST_OPERATIONS;
        let b = k % MOST_OPERATIONS;
        *pair = c[a] && c[b] && (*pair || a == i || b == i);
    }
    out
}

// The task of the cluster c of operation i alone. Left free: `near`, which is a hint, and how much less it asks.
pub fn anchored(p: Task, i: usize, c: [bool; MOST_OPERATIONS]) -> Task
    requires { TaskOk p × (i < p.ops) × Cluster p i c }
    ensures { Anchored p i c result }
{
    let mut q = p;
    q.resource = inner_types(p.ops, c, p.resource);
    q.lag = inner_lags(c, p.lag);
    q.near = inner_near(c, p.near, i);
    q
}

// The starts of an operation: ANCHOR for the anchor itself, any in its cluster, 0 elsewhere.
fn anchor_row(inside: bool, anchor: bool) -> Row
    ensures { AnchorRow inside anchor result }
{
    if !inside {
        domain::only(0)
    } else if anchor {
        domain::only(ANCHOR)
    } else {
        [true; MOST_STARTS]
    }
}

// The first domain for the task of the cluster c of operation i. Left free: what other starts a row has.
pub fn anchor_rows(i: usize, c: [bool; MOST_OPERATIONS]) -> Domain
    ensures { AnchorRows i c result }
{
    let mut d = [[false; MOST_STARTS]; MOST_OPERATIONS];
    for j in 0..MOST_OPERATIONS {
        d[j] = anchor_row(c[j], i == j);
    }
    d
}
