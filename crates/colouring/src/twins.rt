// Which colours are worth a try at a node: of those that are clear for the same nodes, the lowest is enough.
ghost use Rattle.std.specs.Prelude.{◌≡◌, true, false, ℕ, ◌≤◌, ◌<◌};
ghost use Rattle.sizes.specs.Sizes.{most_operations, most_instances};
ghost use Rattle.domain.specs.Domain.{has};
ghost use Rattle.colouring.specs.Parts.{SameColumn, Twin, Worth};

use crate::{Marks, Table};

// Whether the colours v and w are clear for the same nodes.
fn same_column(count: usize, done: &Marks, table: &Table, v: usize, w: usize) -> bool
    requires { (count ≤ most_operations) × (v < most_instances) × (w < most_instances) }
    ensures { SameColumn count done.now table.now v w result }
{
    for k in 0..count {
        if !done[k] && table[k][v] != table[k][w] {
            return false;
        }
    }
    true
}

// Whether a colour below v is clear for the same nodes: then v need not be tried.
fn twin(count: usize, done: &Marks, table: &Table, v: usize) -> bool
    requires { (count ≤ most_operations) × (v < most_instances) }
    ensures { Twin count done.now table.now v result }
{
    (0..v).any(|w| same_column(count, done, table, v, w))
}

// Whether the colour is worth a try at the node.
#[tactic(auto, using(crate::specs::Laws::worth_clear, crate::specs::Laws::worth_taken))]
pub fn worth(count: usize, done: &Marks, table: &Table, node: usize, colour: usize) -> bool
    requires { (count ≤ most_operations) × (node < count) × (colour < most_instances) × (has done.now node ≡ false) }
    ensures { Worth count done.now table.now node colour result }
{
    table[node][colour] && !twin(count, done, table, colour)
}
