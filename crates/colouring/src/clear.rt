// Which colours are clear for a node: those that no coloured neighbour has.
ghost use Rattle.std.specs.Prelude.{◌≡◌, true, false, ℕ, ◌≤◌, ◌<◌};
ghost use Rattle.sizes.specs.Sizes.{most_operations};
ghost use Rattle.laws.specs.Says.{Says};
ghost use Rattle.colouring.specs.Parts.{Clear, ClearRow, ClearTable, Lowest};

use crate::{Colours, Marks, Question, Table};
use sizes::{MOST_INSTANCES, MOST_OPERATIONS};

// Whether no coloured neighbour of the node has the colour v.
fn clear(q: Question, done: &Marks, colours: &Colours, node: usize, v: usize) -> bool
    requires { node < most_operations }
    ensures { Says (Clear q.entry.count q.entry.edges.now done.now colours.now node v) result }
{
    !(0..q.count).any(|j| done[j] && q.edges[j][node] && colours[j] == v)
}

// The colours that are clear for the node.
fn clear_row(q: Question, done: &Marks, colours: &Colours, node: usize) -> [bool; MOST_INSTANCES]
    requires { node < most_operations }
    ensures { ClearRow q.entry.count q.entry.edges.now done.now colours.now node result }
{
    let mut row = [false; MOST_INSTANCES];
    for (v, flag) in row.iter_mut().enumerate() {
        *flag = clear(q, done, colours, node, v);
    }
    row
}

// The colours that are clear for each node.
pub fn clear_table(q: Question, done: &Marks, colours: &Colours) -> Table
    ensures { ClearTable q.entry.count q.entry.edges.now done.now colours.now result }
{
    let mut table = [[false; MOST_INSTANCES]; MOST_OPERATIONS];
    for k in 0..q.count {
        table[k] = clear_row(q, done, colours, k);
    }
    table
}

// The lowest colour below the limit that is clear for the node, if there is one.
pub fn lowest_clear(q: Question, done: &Marks, colours: &Colours, node: usize) -> Option<usize>
    requires { node < most_operations }
    ensures { Lowest q.entry.count q.entry.edges.now done.now colours.now node q.entry.limit result }
{
    for v in 0..q.limit {
        if clear(q, done, colours, node, v) {
            return Some(v);
        }
    }
    None
}
