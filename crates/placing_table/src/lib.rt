// The placing table (modulo reservation table) of a sheet at an interval: which operations are placed, at which start,
// on which instance; when it is consistent, and which instances are free in it. An operation holds its instance for the
// K slots from its start on. The services that place an operation are in the crate `placing`.
#![tactic(auto)]

use sizes::MOST_OPERATIONS;

mod entries; // entries.rt: question 10
mod free; // free.rt: what is taken, what is free

pub use entries::consistent;
pub use free::{is_free, lowest_free};

// Where an operation is placed. Both numbers are 0 where nothing is.
// Kept: leastplan_placement of C has this flag beside its numbers, and an Option has another layout.
#[repr(C)]
#[derive(Clone, Copy)]
pub struct Placement {
    pub placed: bool,
    pub start: usize,
    pub instance: usize,
}

// An entry for each operation.
#[repr(C)]
#[derive(Clone, Copy)]
pub struct Table {
    pub entries: [Placement; MOST_OPERATIONS],
}

// An entry where nothing is placed.
pub const NOTHING: Placement = Placement {
    placed: false,
    start: 0,
    instance: 0,
};
