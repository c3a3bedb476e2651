// The recurrence bound (RecMII): the least interval without a bad closed walk.
ghost use Rattle.dependence.specs.Answer.{BoundAnswer};

use dependence::{Graph, in_range, interval_ok, net_of};
use net::settle;
use sizes::MOST_OPERATIONS;

#[repr(C)]
#[derive(Clone, Copy)]
pub struct Bound {
    pub answer: usize,
    pub value: usize,
}

// The least interval from 1 to the cap without a bad closed walk, or 8 where each has one.
pub fn recurrence_bound(graph: Graph, cap: usize) -> Bound
    ensures { BoundAnswer graph cap result.answer result.value }
{
    if in_range(graph) && interval_ok(cap) {
        for l in 1..cap + 1 {
            let net = net_of(graph, l);
            if settle(net, [0; MOST_OPERATIONS]).is_some() {
                return Bound {
                    answer: 0,
                    value: l,
                };
            }
        }
        return Bound {
            answer: 8,
            value: 0,
        };
    }
    Bound {
        answer: 3,
        value: 0,
    }
}
