// The page of a placing table (modulo reservation table on paper): specs/Page.antt says which bytes it has. Here are
// its columns, and who uses an instance; `page_writer` puts the lines together.
// An inner layer, a crate of its own for the check's time. Caller: `page_writer`, for a sheet and an interval that are
// accepted.
#![tactic(auto)]

mod columns; // columns.rt: text in columns
mod users; // users.rt: who uses an instance

pub use columns::{put_at, put_in_five, put_in_four};
pub use users::{Users, users_in};
