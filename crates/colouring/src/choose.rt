// Which node to colour next: few clear colours, then many neighbours without a colour (DSATUR). Any choice is right;
// nothing here promises more than a node that has no colour.
ghost use Rattle.std.specs.Prelude.{◌≤◌};
ghost use Rattle.sizes.specs.Sizes.{most_operations, most_instances};
ghost use Rattle.colouring.specs.Parts.{OpenNode};

use crate::{Marks, Question, Table};
use sizes::{MOST_INSTANCES, MOST_OPERATIONS};

// A step of the rank for a colour more is greater than every number of neighbours.
const STEP: usize = MOST_OPERATIONS + 1;

// How many of the colours below the limit are clear.
fn colours_left(row: &[bool; MOST_INSTANCES], limit: usize) -> usize
    requires { limit ≤ most_instances }
    ensures { result ≤ most_instances }
{
    row[..limit].iter().filter(|clear| **clear).count()
}

// How many neighbours have no colour.
fn neighbours(row: &Marks, done: &Marks, count: usize) -> usize
    requires { count ≤ most_operations }
    ensures { result ≤ most_operations }
{
    row[..count]
        .iter()
        .zip(&done[..count])
        .filter(|(joined, done)| **joined && !**done)
        .count()
}

// The lower, the sooner: few colours left, then many neighbours.
fn rank(left: usize, most: usize) -> usize
    requires { (left ≤ most_instances) × (most ≤ most_operations) }
{
    left * STEP + MOST_OPERATIONS - most
}

// A node to colour, if one has no colour.
pub fn choose(q: Question, done: &Marks, table: &Table) -> Option<usize>
    ensures { OpenNode q.entry.count done.now result }
{
    let mut at = None;
    let mut least = 0;
    for node in 0..q.count {
        if !done[node] {
            let left = colours_left(&table[node], q.limit);
            let here = rank(left, neighbours(&q.edges[node], done, q.count));
            if at.is_none() || here < least {
                at = Some(node);
                least = here;
            }
        }
    }
    at
}
