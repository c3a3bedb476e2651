// What the commands print of a sheet, line by line: specs/Prints.antt says what each of them prints. Here are the lines
// that several answers share, and those of the timing services.
// An inner layer, a crate of its own for the check's time. Caller: `commands`, with a sheet that was read.
#![tactic(auto)]

mod cells; // cells.rt: the rows of the separation table
mod parts; // parts.rt: lines that several answers share
mod services; // services.rt: the lines of each timing service's answer

pub use parts::{alone, denied};
pub use services::{bounds, separations, starts};
