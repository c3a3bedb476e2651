// Domains of the plan search: rows of the starts that are still allowed, one row for each operation. The class of a
// start is what it leaves modulo some number: its slot, where that is the interval.
// An inner layer, a crate of its own for the check's time: `only_class`, `without_class` and `other_class` ask for a
// modulus above 0, `next_class` for a class below its modulus, `only` for a start below MOST_STARTS.
// Callers: `support`, `saturation`, `seats`, `narrow` and `search`. Their modulus is the task's interval (above 0 by
// `TaskOk`) or MOST_STARTS, their classes are below it, and their starts are in a row.
#![tactic(auto)]

ghost use Rattle.std.specs.Prelude.{◌≡◌, true, false, ℕ, ◌+◌, ◌≤◌, ◌<◌};
ghost use Rattle.sizes.specs.Sizes.{most_starts};
ghost use Rattle.domain.specs.Domain.{Kept, OnlyClass, WithoutClass, NextClass, Below, From, Only, Least, End, Other};

use sizes::{MOST_OPERATIONS, MOST_STARTS};

// Whether each start is still allowed: of one operation, of all.
pub type Row = [bool; MOST_STARTS];

pub type Domain = [Row; MOST_OPERATIONS];

// The class of the start after one of this class.
#[tactic(auto, using(crate::specs::Rows::next_inner, crate::specs::Rows::next_wraps))]
pub fn next_class(class: usize, modulus: usize) -> usize
    requires { class < modulus }
    ensures { NextClass class modulus result }
{
    let next = class + 1;
    if next < modulus { next } else { 0 }
}

// The starts of the row that pass the test.
fn kept<F: Fn(usize) -> bool>(row: Row, keep: F) -> Row
    requires { (t : ℕ) → t < most_starts → F.pre keep t }
    ensures { Kept (F.post keep) row result }
{
    let mut out = row;
    for (t, flag) in out.iter_mut().enumerate() {
        *flag = *flag && keep(t);
    }
    out
}

// The starts of the row that are of the class.
pub fn only_class(row: Row, class: usize, modulus: usize) -> Row
    requires { 0 < modulus }
    ensures { OnlyClass row class modulus result }
{
    kept(row, |t| t % modulus == class)
}

// The starts of the row that are of another class.
pub fn without_class(row: Row, class: usize, modulus: usize) -> Row
    requires { 0 < modulus }
    ensures { WithoutClass row class modulus result }
{
    kept(row, |t| t % modulus != class)
}

// The starts of the row below the end.
pub fn below(row: Row, end: usize) -> Row
    ensures { Below row end result }
{
    kept(row, |t| t < end)
}

// The starts of the row from `start` on.
pub fn from_start(row: Row, start: usize) -> Row
    ensures { From row start result }
{
    kept(row, |t| start <= t)
}

// One start alone.
pub fn only(start: usize) -> Row
    requires { start < most_starts }
    ensures { Only start result }
{
    let mut out = [false; MOST_STARTS];
    out[start] = true;
    out
}

// The least start of the row, or MOST_STARTS.
pub fn least(row: Row) -> usize
    ensures { Least row result }
{
    row.iter()
        .position(|allowed| *allowed)
        .unwrap_or(MOST_STARTS)
}

// One past the last start of the row, or 0.
pub fn end_of(row: Row) -> usize
    ensures { End row result }
{
    row.iter()
        .rposition(|allowed| *allowed)
        .map_or(0, |last| last + 1)
}

// Whether the row has a start of another class than this one.
pub fn other_class(row: Row, start: usize, modulus: usize) -> bool
    requires { 0 < modulus }
    ensures { Other row start modulus result }
{
    let class = start % modulus;
    row.iter()
        .enumerate()
        .any(|(t, allowed)| *allowed && t % modulus != class)
}

// Whether two rows differ. No promise: callers only take it for which rows are worth another look.
pub fn differ(a: &Row, b: &Row) -> bool {
    a != b
}
