// The bad closed walk with the fewest edges and, among those, the list that is first when compared number by number.
// An inner layer, a crate of its own for the check's time. Caller: `constraints`, as for `walks`.
#![tactic(auto)]

ghost use Rattle.std.specs.Prelude.{◌≡◌, List, ℕ, MatchOption, ◌≤◌, ◌<◌, ◌+ℤ◌};
ghost use Rattle.sizes.specs.Sizes.{most_operations};
ghost use Rattle.laws.specs.Entry.{at, cell};
ghost use Rattle.laws.specs.Says.{Says};
ghost use Rattle.net.specs.Walk.{Bad};
ghost use Rattle.net.specs.Net.{web_of, NetOk};
ghost use Rattle.walks.specs.Found.{FirstLoop};
ghost use Rattle.walks.specs.Table.{Step, RowWithin, Bounded};
ghost use Rattle.walks.specs.Closes.{Closes};
ghost use Rattle.walks.specs.Trail.{Middle, GoesOn, Passed, Picked, Trail, Trailed};
ghost use Rattle.walks.specs.Opening.{Open, FirstEdge, Opening, Opened};
ghost use Rattle.walks.specs.Back.{Backs, AfterRow};

use net::Net;
use sizes::MOST_OPERATIONS;
use walks::{NO_WALK, pass, relaxed, still, still_row};

// Whether an edge closes a bad walk, where `back` is the greatest sum of the walks back.
fn closes(weight: i32, back: i32) -> bool
    requires { Step back weight }
    ensures { Says (Closes weight back) result }
{
    NO_WALK < back && 0 < weight + back
}

// The walks to a place, of at most one edge more.
fn back_row(net: Net, row: [i32; MOST_OPERATIONS]) -> [i32; MOST_OPERATIONS]
    requires { NetOk (web_of net) × RowWithin row }
    ensures { AfterRow (web_of net) row result net.count }
{
    let mut out = row;
    let count = usize::from(net.count);
    for arc in &net.arcs[..count] {
        let i = usize::from(arc.from);
        let j = usize::from(arc.to);
        out[i] = relaxed(out[i], row[j], arc.weight);
    }
    out
}

// The greatest sums back to v: in row r those of at most r edges.
fn backs(net: Net, v: usize, k: usize) -> [[i32; MOST_OPERATIONS]; MOST_OPERATIONS]
    requires { NetOk (web_of net) × (v < most_operations) × (k ≤ most_operations) }
    ensures { Backs (web_of net) v k result }
{
    let mut out = [[NO_WALK; MOST_OPERATIONS]; MOST_OPERATIONS];
    let mut row = still_row(v);
    for r in 0..k {
        out[r] = row;
        let next = back_row(net, row);
        row = next;
    }
    out
}

// Whether an edge goes on from u, and the walk can then still be closed.
fn goes_on(from: u8, u: u8, s: i32, weight: i32, back: i32) -> bool
    requires { Middle s × Middle weight × Step back weight }
    ensures { GoesOn from u (s +ℤ weight) back result }
{
    from == u && closes(s + weight, back)
}

// The least edge that goes on from u.
fn pick(net: Net, row: [i32; MOST_OPERATIONS], u: u8, s: i32) -> Option<usize>
    requires { NetOk (web_of net) × RowWithin row × Middle s }
    ensures { MatchOption result (Passed (web_of net) (at row) s u net.count) (λ e. Picked (web_of net) (at row) s u e) }
{
    let count = usize::from(net.count);
    for (e, arc) in net.arcs[..count].iter().enumerate() {
        let j = usize::from(arc.to);
        if goes_on(arc.from, u, s, arc.weight, row[j]) {
            return Some(e);
        }
    }
    None
}

// The rest of the walk: `left` edges from u to v, written from place i on, where s is the sum so far.
fn trail(
    net: Net,
    back: [[i32; MOST_OPERATIONS]; MOST_OPERATIONS],
    out: [usize; MOST_OPERATIONS],
    i: usize,
    left: usize,
    u: u8,
    v: u8,
    s: i32,
) -> [usize; MOST_OPERATIONS]
    requires { Trail (web_of net) out i left u v s × Backs (web_of net) v left back }
    ensures { Trailed (web_of net) out i left u v s result }
{
    if left == 0 {
        return out;
    }
    let row = back[left - 1];
    let e = pick(net, row, u, s).unwrap();
    let arc = net.arcs[e];
    let mut next = out;
    next[i] = e;
    trail(net, back, next, i + 1, left - 1, arc.to, v, s + arc.weight)
}

// The least edge that closes a bad walk.
fn first_edge(net: Net, w: [[i32; MOST_OPERATIONS]; MOST_OPERATIONS]) -> Option<usize>
    requires { NetOk (web_of net) × Bounded w }
    ensures { MatchOption result (Open (web_of net) (cell w) net.count) (λ e. FirstEdge (web_of net) (cell w) e) }
{
    let count = usize::from(net.count);
    for (e, arc) in net.arcs[..count].iter().enumerate() {
        let i = usize::from(arc.to);
        let j = usize::from(arc.from);
        if closes(arc.weight, w[i][j]) {
            return Some(e);
        }
    }
    None
}

// The walk that edge e opens, of k edges more.
fn walk_from(net: Net, k: usize, e: usize) -> [usize; MOST_OPERATIONS]
    requires { Opening (web_of net) k e }
    ensures { Opened (web_of net) k result }
{
    let mut out = [0usize; MOST_OPERATIONS];
    out[0] = e;
    let arc = net.arcs[e];
    let back = backs(net, usize::from(arc.from), k);
    trail(net, back, out, 1, k, arc.to, arc.from, arc.weight)
}

// A closed walk: the numbers of its edges, and 0 past them.
// Kept: an array with a length, as memory is fixed.
#[derive(Clone, Copy)]
pub struct Loop {
    pub length: usize,
    pub edges: [usize; MOST_OPERATIONS],
}

// The first bad closed walk, where there is one: the tables of walks of more and more edges, until an edge closes one.
pub fn first_bad(net: Net) -> Loop
    requires { NetOk (web_of net) × ((p : List ℕ) × Bad (web_of net) p) }
    ensures { FirstLoop (web_of net) result.length result.edges }
{
    let mut w = still();
    let mut k: usize = 0;
    loop {
        if let Some(e) = first_edge(net, w) {
            let edges = walk_from(net, k, e);
            return Loop {
                length: k + 1,
                edges,
            };
        }
        let next = pass(net, w, w);
        w = next;
        k += 1;
    }
}
