// Refusal 5: the bad closed walk with the fewest edges and, among those, the first list.
ghost use Rattle.std.specs.Prelude.{◌≡◌};
ghost use Rattle.laws.specs.Entry.{zeros};
ghost use Rattle.dependence.specs.Answer.{WalkAnswer};

use bad_walks::first_bad;
use dependence::{Graph, in_range, interval_ok, net_of};
use net::settle;
use sizes::MOST_OPERATIONS;

#[repr(C)]
#[derive(Clone, Copy)]
pub struct BadWalk {
    pub answer: usize,
    pub loop_length: usize,
    pub loop_edges: [usize; MOST_OPERATIONS],
}

fn without_loop(answer: usize) -> BadWalk
    ensures { (result.answer ≡ answer) × (result.loop_length ≡ 0) × (result.loop_edges ≡ zeros) }
{
    BadWalk {
        answer,
        loop_length: 0,
        loop_edges: [0; MOST_OPERATIONS],
    }
}

// The first bad closed walk with 5, or 0 where there is none.
pub fn bad_walk(graph: Graph, interval: usize) -> BadWalk
    ensures { WalkAnswer graph interval result.answer result.loop_length result.loop_edges }
{
    if !in_range(graph) {
        return without_loop(3);
    }
    if !interval_ok(interval) {
        return without_loop(4);
    }
    let net = net_of(graph, interval);
    if settle(net, [0; MOST_OPERATIONS]).is_some() {
        return without_loop(0);
    }
    let w = first_bad(net);
    let loop_edges = w.edges;
    BadWalk {
        answer: 5,
        loop_length: w.length,
        loop_edges,
    }
}
