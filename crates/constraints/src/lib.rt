// Difference constraints answered: at an interval the earliest starts, bad closed walks and separations of a dependence
// graph, and its recurrence bound. No public function has a `requires`: numbers out of their range get the answer of
// document 01. The answers are in dependence/specs/Answer.antt.
#![tactic(auto)]

mod bound;
mod loops;
mod separation;
mod starts;

pub use bound::{Bound, recurrence_bound};
pub use loops::{BadWalk, bad_walk};
pub use separation::separations;
pub use starts::{Starts, earliest};
