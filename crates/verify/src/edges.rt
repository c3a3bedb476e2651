// The dependences.
ghost use Rattle.std.specs.Prelude.{◌<◌, pos, ◌+ℤ◌, ◌≤ℤ◌};
ghost use Rattle.sizes.specs.Sizes.{most_starts};
ghost use Rattle.laws.specs.Entry.{vec};
ghost use Rattle.laws.specs.Says.{Says};
ghost use Rattle.dependence.specs.Graph.{InRange, Interval};
ghost use Rattle.rules.specs.Totals.{SmallTotal};
ghost use Rattle.verify.specs.Parts.{Low, EdgeMet, EachMet};

use dependence::Graph;
use sizes::MOST_OPERATIONS;

// Whether two starts keep a dependence with this total.
fn met(from: usize, total: i32, to: usize) -> bool
    requires { (from < most_starts) × (to < most_starts) × SmallTotal total }
    ensures { Says ((pos from +ℤ total) ≤ℤ pos to) result }
{
    from as i32 + total <= to as i32
}

// Whether the starts keep the dependence of edge k, with its total, if both its ends are among the first n operations.
fn edge_met(graph: Graph, total: i32, starts: [usize; MOST_OPERATIONS], n: usize, k: usize) -> bool
    requires { InRange graph × Low n (vec starts) × (k < graph.edge_count) × SmallTotal total }
    ensures { Says (EdgeMet graph total (vec starts) n k) result }
{
    let e = graph.edges[k];
    n <= e.from || n <= e.to || met(starts[e.from], total, starts[e.to])
}

// Whether the starts keep every dependence among the first n operations.
pub fn all_met(graph: Graph, interval: usize, starts: [usize; MOST_OPERATIONS], n: usize) -> bool
    requires { InRange graph × Interval interval × Low n (vec starts) }
    ensures { Says (EachMet graph interval (vec starts) n) result }
{
    let totals = dependence::totals(graph, interval);
    let total = totals.values;
    let count = graph.edge_count;
    for k in 0..count {
        if !edge_met(graph, total[k], starts, n, k) {
            return false;
        }
    }
    true
}
