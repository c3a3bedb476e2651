// Arrays with a place for each of the most operations: what several crates do with them.
#![tactic(auto)]

ghost use Rattle.arrays.specs.Cut.{Cut};

use sizes::MOST_OPERATIONS;

// The first n numbers, and 0 past them.
pub fn cut(n: usize, xs: [usize; MOST_OPERATIONS]) -> [usize; MOST_OPERATIONS]
    ensures { Cut n xs result }
{
    let end = n.min(MOST_OPERATIONS);
    let mut out = [0usize; MOST_OPERATIONS];
    out[..end].copy_from_slice(&xs[..end]);
    out
}
