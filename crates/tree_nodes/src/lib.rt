// What the nodes of a denial's tree say: whether a cut is allowed, and whether a leaf is so. `tree_boxes` has what is
// left to each operation there.
// An inner layer, a crate of its own for the check's time. Its functions ask for a sheet in range and an interval up to
// the cap, for operations and edges that the sheet has, and for bounds of at most five digits (`Small`).
// Caller: `tree_judge`, which is asked about such a sheet and interval alone. Its nodes are read by `tree_lines`, which
// lets through none with an operation or an edge that the sheet lacks, and no number of more than four digits. Its
// bounds come from `tree_boxes`, which keeps them small.
#![tactic(auto)]

mod chain;
mod leaf;

pub use leaf::{cut_allowed, leaf_so};
