// One step of the search: what a node looks at, which operation is split, what a search answers, and the descent to the
// first plan. An inner layer, a crate of its own for the check's time; its functions ask for a task whose numbers are
// within its arrays (`TaskOk`), or for operations of it. Caller: `search`, which is itself asked about such a task.
#![tactic(auto)]

use sizes::MOST_OPERATIONS;

mod budget;
mod choice;
mod descent;
mod view;

pub use budget::{denies, fewer};
pub use choice::{blamed, single};
pub use descent::eager;
pub use view::{View, look};

// Which operations are marked.
pub type Marks = [bool; MOST_OPERATIONS];

// A start for each operation.
pub type Starts = [usize; MOST_OPERATIONS];

// How often each operation was found at fault: it only guides the choice.
pub type Blame = [u32; MOST_OPERATIONS];

// The search is over: it had no node left, and says nothing.
#[derive(Clone, Copy)]
pub struct Over;

// What a search answers, a plan or that there is none, unless it is over; and the nodes that it left of a budget.
#[derive(Clone, Copy)]
pub struct Found {
    pub answer: Result<Option<Starts>, Over>,
    pub blame: Blame,
    pub left: Option<u32>,
}
