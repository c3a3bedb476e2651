// Lags: how much later, at least, each operation starts than each other, in any starts that meet every dependence. The
// plan search uses them. A crate of its own for the check's time.
#![tactic(auto)]

ghost use Rattle.std.specs.Prelude.{◌≡◌, ◌≤◌, ◌<◌, pos, ◌-ℤ◌};
ghost use Rattle.sizes.specs.Sizes.{most_operations};
ghost use Rattle.net.specs.Net.{Below, highest_floor, highest_start};
ghost use Rattle.dependence.specs.Answer.{TableAnswer, Lags};
ghost use Rattle.lags.specs.Lag.{LagCells, PeakList};

use dependence::{Graph, HIGHEST_FLOOR, in_range, interval_ok, net_of};
use net::settle;
use sizes::MOST_OPERATIONS;

// The highest floor at i, and 0 elsewhere.
fn peak(i: usize) -> [usize; MOST_OPERATIONS]
    requires { i < most_operations }
    ensures { PeakList i result }
{
    let mut f = [0usize; MOST_OPERATIONS];
    f[i] = HIGHEST_FLOOR;
    f
}

fn lag(at: usize) -> i32
    requires { at ≤ highest_start }
    ensures { result ≡ pos at -ℤ pos highest_floor }
{
    at as i32 - HIGHEST_FLOOR as i32
}

fn lag_row(ops: usize, starts: [usize; MOST_OPERATIONS]) -> [i32; MOST_OPERATIONS]
    requires { (ops ≤ most_operations) × Below highest_start starts }
    ensures { LagCells ops starts result }
{
    let mut out = [0i32; MOST_OPERATIONS];
    for j in 0..ops {
        out[j] = lag(starts[j]);
    }
    out
}

// Cell i j: how much later, at least, j starts than i, in any starts up to the highest floor that meet every
// dependence. As with `separations`, the answer's number is that of `bad_walk`.
pub fn lags(graph: Graph, interval: usize) -> [[i32; MOST_OPERATIONS]; MOST_OPERATIONS]
    ensures { TableAnswer graph interval (Lags graph interval) result }
{
    let mut out = [[0i32; MOST_OPERATIONS]; MOST_OPERATIONS];
    if in_range(graph) && interval_ok(interval) {
        let net = net_of(graph, interval);
        let ops = graph.ops;
        for i in 0..ops {
            let Some(at) = settle(net, peak(i)) else {
                return [[0; MOST_OPERATIONS]; MOST_OPERATIONS];
            };
            out[i] = lag_row(ops, at);
        }
    }
    out
}
