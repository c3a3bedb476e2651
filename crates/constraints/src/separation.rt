// Separations (MinDist): for each pair of operations the greatest sum over walks of at least one edge.
ghost use Rattle.dependence.specs.Answer.{TableAnswer, Separations};

use dependence::{Graph, in_range, interval_ok, net_of};
use net::settle;
use sizes::MOST_OPERATIONS;
use walks::greatest;

// Each cell the greatest sum over walks of at least one edge from row to column, or the mark `NO_WALK`. The table is
// returned by value and cannot stand in a struct beside an answer's number. So the number travels by a second function,
// `bad_walk`, which puts the same questions: where it answers 3, 4 or 5, every cell here is 0, and where it answers 0,
// this is the table.
pub fn separations(graph: Graph, interval: usize) -> [[i32; MOST_OPERATIONS]; MOST_OPERATIONS]
    ensures { TableAnswer graph interval (Separations graph interval) result }
{
    if in_range(graph) && interval_ok(interval) {
        let net = net_of(graph, interval);
        if settle(net, [0; MOST_OPERATIONS]).is_some() {
            return greatest(net);
        }
    }
    [[0; MOST_OPERATIONS]; MOST_OPERATIONS]
}
