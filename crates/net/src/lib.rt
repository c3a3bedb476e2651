// A net: numbered edges between operations, each with a weight of its own, and the earliest starts over a floor. This
// is an inner layer of `dependence`, in a crate of its own so that each is checked in under a minute. Its one public
// function, `settle`, has a `requires`. The only callers are `constraints` and `lags` (`walks` has nets, and calls
// nothing here). A net comes from `dependence::net_of` alone, whose contract gives `NetOk` and as many operations as the
// graph has, which question 3 puts at 1 or more. `Below highest_floor floor` holds as the floor is all 0, or the highest
// floor at one operation and 0 elsewhere (`lags::peak`), or passed `floor_ok` and then `arrays::cut`, which puts 0 past
// the operations.
#![tactic(auto)]

ghost use Rattle.std.specs.Prelude.{◌≡◌, List, ℕ, MatchOption, ◌≤◌, pos, ◌+ℤ◌};
ghost use Rattle.std.specs.Int.Signed.{le_z};
ghost use Rattle.net.specs.Walk.{Bad};
ghost use Rattle.net.specs.Net.{web_of, NetOk, Below, highest_floor, highest_start};
ghost use Rattle.net.specs.Starts.{Addable, Pushed, Part, AllMet, Settled};

use sizes::{MOST_EDGES, MOST_OPERATIONS};

// An edge from an operation to an operation, with its weight.
#[derive(Clone, Copy)]
pub struct Arc {
    pub from: u8,
    pub to: u8,
    pub weight: i32,
}

// Edges below `count`, from and to operations below `ops`.
// Kept: an array with a count, as memory is fixed.
#[derive(Clone, Copy)]
pub struct Net {
    pub ops: u8,
    pub count: u8,
    pub arcs: [Arc; MOST_EDGES],
}

// A start, after an edge to it.
fn pushed(from: usize, weight: i32, to: usize) -> usize
    requires { Addable from weight to }
    ensures { Pushed from weight to result }
{
    let x = from as i32 + weight;
    if x <= to as i32 { to } else { x as usize }
}

// The starts, each after every edge to it.
fn push_round(net: Net, t: [usize; MOST_OPERATIONS]) -> [usize; MOST_OPERATIONS]
    requires { NetOk (web_of net) × Below highest_start t }
    ensures { Part (web_of net) t result net.count }
{
    let mut out = t;
    let count = usize::from(net.count);
    for arc in &net.arcs[..count] {
        let i = usize::from(arc.from);
        let j = usize::from(arc.to);
        out[j] = pushed(out[i], arc.weight, out[j]);
    }
    out
}

fn met(from: usize, weight: i32, to: usize) -> bool
    requires { Addable from weight to }
    ensures { result ≡ le_z (pos from +ℤ weight) (pos to) }
{
    from as i32 + weight <= to as i32
}

fn all_met(net: Net, t: [usize; MOST_OPERATIONS]) -> bool
    requires { NetOk (web_of net) × Below highest_start t }
    ensures { AllMet (web_of net) t result }
{
    let count = usize::from(net.count);
    for arc in &net.arcs[..count] {
        let i = usize::from(arc.from);
        let j = usize::from(arc.to);
        if !met(t[i], arc.weight, t[j]) {
            return false;
        }
    }
    true
}

// The least starts that are at least the floor and meet every edge, by rounds over the edges; as many rounds as there
// are operations settle them, or a bad closed walk exists, and there are none.
pub fn settle(net: Net, floor: [usize; MOST_OPERATIONS]) -> Option<[usize; MOST_OPERATIONS]>
    requires { NetOk (web_of net) × (1 ≤ net.ops) × Below highest_floor floor }
    ensures { MatchOption result ((p : List ℕ) × Bad (web_of net) p) (λ t. Settled (web_of net) floor t) }
{
    let mut t = floor;
    for _round in 0..net.ops {
        if all_met(net, t) {
            return Some(t);
        }
        let next = push_round(net, t);
        t = next;
    }
    None
}
