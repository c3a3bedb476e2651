// Reads the line of a node of a denial's tree: its key, its numbers, and that the sheet has its operations and edges.
#![tactic(auto)]

ghost use Rattle.std.specs.Prelude.{◌≡◌, ◌≤◌, ◌<◌, ◌↔◌, EachIndex, IfSome, IsTrue, eqb, ltb, drop, take, get_or};
ghost use Rattle.scan_list.specs.List.{most_items};
ghost use Rattle.tree_lines.specs.Node.{all_below, both, node_of, seen_node, NodeFits};
ghost use Rattle.tree_lines.specs.NodeLaws.{node_if};

use scan_list::{Items, MOST_ITEMS, read_list};

// The most edges of a chain or a walk.
const MOST_CHAINED: usize = 24;

// A cut of what is left to an operation: its starts, or its instances, up to a number and above it.
#[derive(Clone, Copy)]
pub enum Cut {
    Split(usize, usize),
    Seat(usize, usize),
}

// The numbers of a line, 0 past their count.
// Kept: an array with its count, since memory is fixed.
#[derive(Clone, Copy)]
pub struct Numbers {
    pub count: usize,
    pub values: [usize; MOST_ITEMS],
}

// The edges of a closed walk, an operation and the edges of a chain from it, or two operations.
#[derive(Clone, Copy)]
pub enum Leaf {
    Loop(Numbers),
    Late(Numbers),
    Clash(usize, usize),
}

#[derive(Clone, Copy)]
pub enum Node {
    Cutting(Cut),
    Closing(Leaf),
}

// A node, and the place after its line.
#[derive(Clone, Copy)]
pub struct NodeLine {
    pub node: Node,
    pub next: usize,
}

// Whether each number is below a limit.
fn all_below(values: &[usize], limit: usize) -> bool
    ensures { IsTrue result ↔ EachIndex values.now (λ k. get_or values.now k 0 < limit) }
{
    values.iter().all(|value| *value < limit)
}

// `split=i,v` and `seat=i,k`: two numbers, and the operation is the sheet's.
fn cut_known(line: Items, ops: usize) -> bool
    ensures { result ≡ both (eqb line.count 2) (ltb (get_or line.values 0 0) ops) }
{
    line.count == 2 && line.values[0] < ops
}

// `loop=` and edges.
fn loop_known(line: Items, edges: usize) -> bool
    requires { line.count ≤ most_items }
    ensures { result ≡ all_below edges (take line.count line.values) }
{
    all_below(&line.values[..line.count], edges)
}

// `late=i` and edges.
fn late_known(line: Items, ops: usize, edges: usize) -> bool
    requires { (0 < line.count) × (line.count ≤ most_items) }
    ensures { result ≡ both (ltb (get_or line.values 0 0) ops) (all_below edges (drop 1 (take line.count line.values))) }
{
    line.values[0] < ops && all_below(&line.values[1..line.count], edges)
}

// `clash=i,j`: two operations.
fn clash_known(line: Items, ops: usize) -> bool
    ensures { result ≡ both (eqb line.count 2) (both (ltb (get_or line.values 0 0) ops) (ltb (get_or line.values 1 0) ops)) }
{
    let i = line.values[0];
    let j = line.values[1];
    line.count == 2 && i < ops && j < ops
}

// A node where it is known.
fn node_if(known: bool, node: Node, next: usize) -> Option<NodeLine>
    ensures { result ≡ node_if known node next }
{
    known.then_some(NodeLine { node, next })
}

fn numbers_of(line: Items) -> Numbers
    ensures { (result.count ≡ line.count) × (result.values ≡ line.values) }
{
    let values = line.values;
    Numbers {
        count: line.count,
        values,
    }
}

// The node at `at`, of a sheet with this many operations and edges.
pub fn read_node(s: &[u8], at: usize, ops: usize, edges: usize) -> Option<NodeLine>
    ensures result_value { seen_node s.now result ≡ node_of ops edges (drop at s.now) }
    ensures node_fits { IfSome result (NodeFits s.now) }
{
    if let Some(line) = read_list(s, at, b"split=", 2) {
        let cut = Cut::Split(line.values[0], line.values[1]);
        return node_if(cut_known(line, ops), Node::Cutting(cut), line.next);
    }
    if let Some(line) = read_list(s, at, b"seat=", 2) {
        let cut = Cut::Seat(line.values[0], line.values[1]);
        return node_if(cut_known(line, ops), Node::Cutting(cut), line.next);
    }
    if let Some(line) = read_list(s, at, b"loop=", MOST_CHAINED) {
        let leaf = Leaf::Loop(numbers_of(line));
        return node_if(loop_known(line, edges), Node::Closing(leaf), line.next);
    }
    if let Some(line) = read_list(s, at, b"late=", MOST_CHAINED + 1) {
        let leaf = Leaf::Late(numbers_of(line));
        return node_if(late_known(line, ops, edges), Node::Closing(leaf), line.next);
    }
    if let Some(line) = read_list(s, at, b"clash=", 2) {
        let leaf = Leaf::Clash(line.values[0], line.values[1]);
        return node_if(clash_known(line, ops), Node::Closing(leaf), line.next);
    }
    None
}
