// The sizes of a loop sheet's parts, and so of the arrays that hold them (the table of ranges in 01). specs/ has them
// as numbers for contracts.

// Operations: the greatest N.
#![tactic(auto)]

pub const MOST_OPERATIONS: usize = 24;

// Edges: the greatest E.
pub const MOST_EDGES: usize = 96;

// Types: the greatest R.
pub const MOST_TYPES: usize = 8;

// Instances of a type: the greatest A.
pub const MOST_INSTANCES: usize = 8;

// Starts: the greatest H.
pub const MOST_STARTS: usize = 128;

// Intervals: the greatest M.
pub const MOST_INTERVALS: usize = 64;
