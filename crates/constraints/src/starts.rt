// Earliest starts over a floor (ASAP): the least starts that meet every dependence; the horizon plays no part.
ghost use Rattle.std.specs.Prelude.{◌≡◌};
ghost use Rattle.laws.specs.Entry.{zeros};
ghost use Rattle.dependence.specs.Answer.{StartsAnswer};

use arrays::cut;
use bad_walks::first_bad;
use dependence::{Graph, floor_ok, interval_ok, net_of};
use net::settle;
use sizes::MOST_OPERATIONS;

#[repr(C)]
#[derive(Clone, Copy)]
pub struct Starts {
    pub answer: usize,
    pub starts: [usize; MOST_OPERATIONS],
    pub loop_length: usize,
    pub loop_edges: [usize; MOST_OPERATIONS],
}

fn refused(answer: usize) -> Starts
    ensures { (result.answer ≡ answer) × (result.starts ≡ zeros) × (result.loop_length ≡ 0) × (result.loop_edges ≡ zeros) }
{
    Starts {
        answer,
        starts: [0; MOST_OPERATIONS],
        loop_length: 0,
        loop_edges: [0; MOST_OPERATIONS],
    }
}

// The least starts that are at least the floor and meet every dependence; or 5 with the first bad closed walk.
pub fn earliest(graph: Graph, interval: usize, floor: [usize; MOST_OPERATIONS]) -> Starts
    ensures { StartsAnswer graph interval floor result.answer result.starts result.loop_length result.loop_edges }
{
    if !floor_ok(graph, floor) {
        return refused(3);
    }
    if !interval_ok(interval) {
        return refused(4);
    }
    let net = net_of(graph, interval);
    let base = cut(graph.ops, floor);
    if let Some(starts) = settle(net, base) {
        return Starts {
            answer: 0,
            starts,
            loop_length: 0,
            loop_edges: [0; MOST_OPERATIONS],
        };
    }
    let w = first_bad(net);
    let loop_edges = w.edges;
    Starts {
        answer: 5,
        starts: [0; MOST_OPERATIONS],
        loop_length: w.length,
        loop_edges,
    }
}
