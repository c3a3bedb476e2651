// A chain of edges: where it ends, and the sum of its totals.
ghost use Rattle.std.specs.Prelude.{◌≡◌, ◌≤◌, ◌<◌, pos, length, IfSome, MatchOption};
ghost use Rattle.scan_list.specs.List.{most_items};
ghost use Rattle.dependence.specs.Graph as graphs;
ghost use Rattle.sheet.specs.Sheet.{InRange, Interval, graph_of};
ghost use Rattle.denial.specs.Tree.{Below};
ghost use Rattle.tree_nodes.specs.Chain.{SmallTotals, Walking, seen_walk, walk_from, NoChain, Followed};

use dependence::Graph;
use sheet::Sheet;
use sizes::MOST_EDGES;

// The end of a chain and its sum.
#[derive(Clone, Copy)]
pub struct Walked {
    pub end: usize,
    pub sum: i32,
}

// The chain from operation `start` along these edges, if each begins where the one before it ended.
fn follow(graph: Graph, totals: &[i32; MOST_EDGES], edges: &[usize], start: usize) -> Option<Walked>
    requires in_range { graphs.InRange graph × SmallTotals graph.edge_count totals.now × (start < graph.ops) }
    requires few { length edges.now ≤ most_items }
    requires below { Below graph.edge_count edges.now }
    ensures result_value { seen_walk result ≡ walk_from graph totals.now start (pos 0) edges.now }
    ensures walking { IfSome result (Walking most_items graph.ops) }
{
    let mut end = start;
    let mut sum = 0;
    for k in edges {
        let e = graph.edges[*k];
        if e.from != end {
            return None;
        }
        end = e.to;
        sum += totals[*k];
    }
    Some(Walked { end, sum })
}

// The same in a sheet at an interval. The totals are made once for the whole chain.
pub fn chained(sheet: Sheet, interval: usize, edges: &[usize], start: usize) -> Option<Walked>
    requires in_range { InRange sheet × Interval sheet interval × (start < sheet.op_count) }
    requires few { length edges.now ≤ most_items }
    requires below { Below sheet.edge_count edges.now }
    ensures { MatchOption result (NoChain (graph_of sheet) start edges.now) (Followed (graph_of sheet) interval start edges.now) }
{
    let graph = sheet_graph::graph_of(sheet);
    let found = dependence::totals(graph, interval);
    let totals = found.values;
    follow(graph, &totals, edges, start)
}
