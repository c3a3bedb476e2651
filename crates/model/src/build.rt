// The search's task: the sheet at one interval, with the lags that every plan keeps.
ghost use Rattle.std.specs.Prelude.{◌≡◌, ◌≤◌};
ghost use Rattle.sizes.specs.Sizes.{most_operations, most_types, most_intervals};
ghost use Rattle.dependence.specs.Graph as dependence;
ghost use Rattle.sheet.specs.Sheet.{InRange, Interval, graph_of};
ghost use Rattle.task.specs.Plan.{SmallLag};
ghost use Rattle.model.specs.Task.{pairs, Clipped, TypesFor, LimitsFor, BusyFor, LagsFor, TaskFor};

use dependence::Graph;
use sheet::Sheet;
use sizes::{MOST_OPERATIONS, MOST_STARTS, MOST_TYPES};
use task::{PAIRS, Task};

// The greatest lag that matters, as starts are below it, and the least one that the dependence part gives.
const MOST_LAG: i32 = MOST_STARTS as i32;

const LEAST_LAG: i32 = -16384;

// The lags of a task, and the pairs whose lags are worth a look.
#[derive(Clone, Copy)]
struct Lags {
    lag: [i32; PAIRS],
    near: [bool; PAIRS],
}

// A lag within the starts' reach. It asks no more, so no plan is lost, and of starts below MOST_LAG no less.
fn clipped(lag: i32) -> i32
    ensures { Clipped lag result }
{
    lag.clamp(LEAST_LAG, MOST_LAG)
}

// Whether two operations hold each other within less than an interval. It only guides the search and promises nothing.
fn close(i: usize, j: usize, there: i32, back: i32, interval: usize) -> bool
    requires { SmallLag there × SmallLag back × (interval ≤ most_intervals) }
{
    i != j && 1 < there + back + interval as i32
}

// The lags, row by row.
fn lags_of(table: [[i32; MOST_OPERATIONS]; MOST_OPERATIONS], interval: usize) -> Lags
    requires { interval ≤ most_intervals }
    ensures { LagsFor table pairs result.lag }
{
    let mut lag = [0i32; PAIRS];
    let mut near = [false; PAIRS];
    for k in 0..PAIRS {
        let i = k / MOST_OPERATIONS;
        let j = k % MOST_OPERATIONS;
        let there = clipped(table[i][j]);
        let back = clipped(table[j][i]);
        lag[k] = there;
        near[k] = close(i, j, there, back, interval);
    }
    Lags { lag, near }
}

// The type of each operation.
fn types_of(sheet: Sheet) -> [usize; MOST_OPERATIONS]
    requires { sheet.op_count ≤ most_operations }
    ensures { TypesFor sheet sheet.op_count result }
{
    let mut resource = [0; MOST_OPERATIONS];
    for i in 0..sheet.op_count {
        resource[i] = sheet.ops[i].resource;
    }
    resource
}

// The instances of each type; 0 past the sheet's types.
fn limits_of(sheet: Sheet) -> [usize; MOST_TYPES]
    requires { sheet.type_count ≤ most_types }
    ensures { LimitsFor sheet sheet.type_count result }
{
    let mut limits = [0; MOST_TYPES];
    for r in 0..sheet.type_count {
        limits[r] = sheet.types[r].instances;
    }
    limits
}

// The slots that each type holds an instance; 1 past the sheet's types.
fn busy_of(sheet: Sheet) -> [usize; MOST_TYPES]
    requires { sheet.type_count ≤ most_types }
    ensures { BusyFor sheet sheet.type_count result }
{
    let mut busy = [1; MOST_TYPES];
    for r in 0..sheet.type_count {
        busy[r] = sheet.types[r].busy;
    }
    busy
}

// The pairs that an edge joins are worth a look too. It only guides the search and promises nothing.
fn joined(near: [bool; PAIRS], graph: Graph) -> [bool; PAIRS]
    requires { dependence.InRange graph }
{
    let mut out = near;
    for k in 0..graph.edge_count {
        let e = graph.edges[k];
        out[e.from * MOST_OPERATIONS + e.to] = true;
        out[e.to * MOST_OPERATIONS + e.from] = true;
    }
    out
}

// The task of a sheet at an interval, with its graph and the lags of that, none above MOST_LAG. Left free: `near`, which
// only guides the search, a lag where the table's is below LEAST_LAG, and entries past the counts, except that past the
// types the instances are 0 and held for 1 slot.
pub fn task_of(
    sheet: Sheet,
    graph: Graph,
    interval: usize,
    table: [[i32; MOST_OPERATIONS]; MOST_OPERATIONS],
) -> Task
    requires { InRange sheet × Interval sheet interval × (graph ≡ graph_of sheet) }
    ensures { TaskFor sheet interval table result }
{
    let Lags { lag, near } = lags_of(table, interval);
    Task {
        ops: sheet.op_count,
        interval,
        resource: types_of(sheet),
        instances: limits_of(sheet),
        busy: busy_of(sheet),
        lag,
        near: joined(near, graph),
    }
}
