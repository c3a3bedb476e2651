// The public functions of `dependence` as C functions, for the benchmark in bench/dependence alone. A table gives one
// cell.
#![tactic(auto)]

ghost use Rattle.laws.specs.Says.{Says};
ghost use Rattle.dependence.specs.Graph.{InRange};
ghost use Rattle.dependence.specs.Answer.{TotalsAnswer, StartsAnswer, WalkAnswer, BoundAnswer, TableAnswer, Separations, Lags};
ghost use Rattle.bench_dependence.specs.Cells.{CellAt, CellOf};

use constraints::{BadWalk, Bound, Starts};
use dependence::{EdgeTotals, Graph};
use sizes::MOST_OPERATIONS;

// A floor for each operation.
#[repr(C)]
#[derive(Clone, Copy)]
pub struct Floor {
    pub at: [usize; MOST_OPERATIONS],
}

#[unsafe(no_mangle)]
pub extern "C" fn dependence_in_range(graph: Graph) -> bool
    ensures { Says (InRange graph) result }
{
    dependence::in_range(graph)
}

#[unsafe(no_mangle)]
pub extern "C" fn dependence_totals(graph: Graph, interval: usize) -> EdgeTotals
    ensures { TotalsAnswer graph interval result.answer result.values }
{
    dependence::totals(graph, interval)
}

#[unsafe(no_mangle)]
pub extern "C" fn dependence_earliest(graph: Graph, interval: usize, floor: Floor) -> Starts
    ensures { StartsAnswer graph interval floor.at result.answer result.starts result.loop_length result.loop_edges }
{
    let at = floor.at;
    constraints::earliest(graph, interval, at)
}

#[unsafe(no_mangle)]
pub extern "C" fn dependence_bad_walk(graph: Graph, interval: usize) -> BadWalk
    ensures { WalkAnswer graph interval result.answer result.loop_length result.loop_edges }
{
    constraints::bad_walk(graph, interval)
}

#[unsafe(no_mangle)]
pub extern "C" fn dependence_bound(graph: Graph, cap: usize) -> Bound
    ensures { BoundAnswer graph cap result.answer result.value }
{
    constraints::recurrence_bound(graph, cap)
}

fn cell(table: [[i32; MOST_OPERATIONS]; MOST_OPERATIONS], i: usize, j: usize) -> i32
    ensures { CellAt table i j result }
{
    if i < MOST_OPERATIONS {
        if j < MOST_OPERATIONS {
            return table[i][j];
        }
    }
    0
}

#[unsafe(no_mangle)]
pub extern "C" fn dependence_separation(graph: Graph, interval: usize, i: usize, j: usize) -> i32
    ensures { CellOf (TableAnswer graph interval (Separations graph interval)) i j result }
{
    cell(constraints::separations(graph, interval), i, j)
}

#[unsafe(no_mangle)]
pub extern "C" fn dependence_lag(graph: Graph, interval: usize, i: usize, j: usize) -> i32
    ensures { CellOf (TableAnswer graph interval (Lags graph interval)) i j result }
{
    cell(lags::lags(graph, interval), i, j)
}
