// Vertex colouring: the nodes are operations, an edge joins two that clash, and a colour is an instance.
// A colouring over given colours of some nodes, or none; and the first colouring of all, by the order of nodes.
// An inner layer, a crate of its own for the check's time: its functions ask for a simple graph within its table, and
// for no more colours than a type may have instances.
// Caller: `instances`, whose graph of those that clash is so by `clash_graph`.
#![tactic(auto)]

ghost use Rattle.std.specs.Prelude.{◌≡◌, true, false, ℕ, ◌≤◌, ◌<◌};
ghost use Rattle.sizes.specs.Sizes.{most_operations, most_instances};
ghost use Rattle.laws.specs.Entry.{vec};
ghost use Rattle.domain.specs.Domain.{has};
ghost use Rattle.colouring.specs.Graph.{Graph, Coloured, Partial, Extends, Searched, First, SomeColouring, FirstColouring};
ghost use Rattle.colouring.specs.Parts.{LeastAt, Tried};

mod choose;
mod clear;
mod twins;

use choose::choose;
use clear::{clear_table, lowest_clear};
use sizes::{MOST_INSTANCES, MOST_OPERATIONS};
use twins::worth;

// A flag for each node.
pub type Marks = [bool; MOST_OPERATIONS];

// A graph: the row of a node has a flag for each node that it is joined to.
pub type Edges = [Marks; MOST_OPERATIONS];

// A colour for each node.
pub type Colours = [usize; MOST_OPERATIONS];

// A flag for each node and colour.
pub type Table = [[bool; MOST_INSTANCES]; MOST_OPERATIONS];

// What is asked: to colour a graph's nodes with colours below the limit.
#[derive(Clone, Copy)]
pub struct Question<'a> {
    pub count: usize,
    pub edges: &'a Edges,
    pub limit: usize,
    ghost count_ok: { count ≤ most_operations },
    ghost limit_ok: { limit ≤ most_instances },
}

// A colouring over the colours of the nodes that are `done`, or none. Left free: which one, and its entries past the
// count.
fn extend(q: Question, done: &Marks, colours: &Colours) -> Option<Colours>
    requires { Graph q.count q.edges.now × Partial q.count q.edges.now q.limit done.now colours.now }
    ensures { Searched q.entry.count q.entry.edges.now q.entry.limit done.now colours.now result }
{
    let table = clear_table(q, done, colours);
    let Some(node) = choose(q, done, &table) else {
        return Some(*colours);
    };
    for colour in 0..q.limit {
        if worth(q.count, done, &table, node, colour) {
            let mut marks = *done;
            marks[node] = true;
            let mut more = *colours;
            more[node] = colour;
            if let Some(found) = extend(q, &marks, &more) {
                return Some(found);
            }
        }
    }
    None
}

// The colouring over the colours of those `done` whose colour of the node is least, from some colouring over them.
fn least_at(q: Question, done: &Marks, colours: &Colours, node: usize, best: &Colours) -> Colours
    requires { Graph q.count q.edges.now × Partial q.count q.edges.now q.limit done.now colours.now × (node < q.count) × (has done.now node ≡ false) × Extends q.count q.edges.now q.limit done.now colours.now (vec best.now) }
    ensures { LeastAt q.entry.count q.entry.edges.now q.entry.limit done.now colours.now node result }
{
    let table = clear_table(q, done, colours);
    for colour in 0..best[node] {
        if worth(q.count, done, &table, node, colour) {
            let mut marks = *done;
            marks[node] = true;
            let mut more = *colours;
            more[node] = colour;
            if let Some(better) = extend(q, &marks, &more) {
                return better;
            }
        }
    }
    *best
}

// The first colouring where it is easy: each node in turn gets the lowest colour that is clear. Else no answer.
fn greedy(q: Question) -> Option<Colours>
    requires { Graph q.count q.edges.now }
    ensures { Tried q.entry.count q.entry.edges.now q.entry.limit result }
{
    let mut done = [false; MOST_OPERATIONS];
    let mut colours = [0usize; MOST_OPERATIONS];
    for k in 0..q.count {
        colours[k] = lowest_clear(q, &done, &colours, k)?;
        done[k] = true;
    }
    Some(colours)
}

// The first colouring from some colouring: each node in turn gets its least colour.
fn from_colouring(q: Question, some: &Colours) -> Colours
    requires { Graph q.count q.edges.now × Coloured q.count q.edges.now q.limit (vec some.now) }
    ensures { First q.entry.count q.entry.edges.now q.entry.limit (vec result) }
{
    let mut done = [false; MOST_OPERATIONS];
    let mut colours = [0usize; MOST_OPERATIONS];
    let mut best = *some;
    for k in 0..q.count {
        let better = least_at(q, &done, &colours, k, &best);
        done[k] = true;
        colours[k] = better[k];
        best = better;
    }
    colours
}

// A colouring with colours below the limit, or none. Left free: which one, and its entries past the count.
pub fn some_colouring(q: Question) -> Option<Colours>
    requires { Graph q.count q.edges.now }
    ensures { SomeColouring q.entry.count q.entry.edges.now q.entry.limit result }
{
    if let Some(easy) = greedy(q) {
        return Some(easy);
    }
    extend(q, &[false; MOST_OPERATIONS], &[0; MOST_OPERATIONS])
}

// The first colouring with colours below the limit by the order of nodes, or none. Left free: its entries past the
// count.
pub fn first_colouring(q: Question) -> Option<Colours>
    requires { Graph q.count q.edges.now }
    ensures { FirstColouring q.entry.count q.entry.edges.now q.entry.limit result }
{
    if let Some(easy) = greedy(q) {
        return Some(easy);
    }
    let some = extend(q, &[false; MOST_OPERATIONS], &[0; MOST_OPERATIONS])?;
    Some(from_colouring(q, &some))
}
