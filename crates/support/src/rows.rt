// One row narrowed by another: which of its starts the other supports. Lags are moved up by MOST_STARTS, so that no
// number here is negative: starts x and t keep the shifted lag s if x + s <= t + MOST_STARTS.
ghost use Rattle.std.specs.Prelude.{◌≡◌, ◌-◌, ◌≤◌};
ghost use Rattle.sizes.specs.Sizes.{most_starts};
ghost use Rattle.support.specs.Support.{Shifted, Earlier, Filled, NextFrom, SupportedBy, most_shift};

use domain::Row;
use sizes::MOST_STARTS;

// A lag of this or less asks nothing: every two starts keep it.
const NO_LAG: i32 = -(MOST_STARTS as i32);

// No two starts keep a lag of this or more.
const NEVER_LAG: i32 = MOST_STARTS as i32;

// The greatest shifted lag.
const MOST_SHIFT: usize = 2 * MOST_STARTS;

// The next starts of a row: for each sum k of a start and a shifted lag the least start x with k <= x + MOST_STARTS,
// moved up by MOST_STARTS.
pub const ENTRIES: usize = MOST_SHIFT + MOST_STARTS;

// An entry where no start is next: it is early enough for none.
const NONE_NEXT: u16 = ENTRIES as u16;

pub type NextStarts = [u16; ENTRIES];

// The lag, shifted; 0 asks nothing.
pub fn shifted(lag: i32) -> usize
    ensures { Shifted lag result }
{
    (lag.clamp(NO_LAG, NEVER_LAG) + NEVER_LAG) as usize
}

// Whether both shifted lags of a pair ask something. No promise: it only tells which way is worth taking.
pub fn two_sided(there: usize, back: usize) -> bool {
    0 < there && 0 < back
}

fn earlier(b: bool, a: u16, later: u16) -> u16
    ensures { Earlier b a later result }
{
    if b { a } else { later }
}

// The next starts with one entry for each sum that every start is late enough for.
fn filled(next: NextStarts, first: u16) -> NextStarts
    ensures { Filled next first result }
{
    let mut out = next;
    out[..MOST_STARTS].fill(first);
    out
}

// The next starts of a row. Left free: an entry may be lower, so that fewer starts go.
fn next_starts(row: Row) -> NextStarts
    ensures { NextFrom row 0 result }
{
    let mut next = [NONE_NEXT; ENTRIES];
    let mut later = NONE_NEXT;
    for t in (0..MOST_STARTS).rev() {
        let k = t + MOST_STARTS;
        later = earlier(row[t], k as u16, later);
        next[k] = later;
    }
    filled(next, later)
}

// The next starts, if they are wanted; else none is too late.
pub fn next_starts_if(wanted: bool, row: Row) -> NextStarts
    ensures { NextFrom row 0 result }
{
    if wanted {
        return next_starts(row);
    }
    [0; ENTRIES]
}

// By both lags: a start stays if the least start of the other row that is late enough for it is early enough.
fn supported_both(next: &NextStarts, row: Row, there: usize, back: usize) -> Row
    requires { (there ≤ most_shift) × (back ≤ most_shift) }
    ensures { SupportedBy 0 most_starts next.now row there back result }
{
    let mut limit = (MOST_SHIFT + 1 - there) as u16;
    let mut out = row;
    for t in 0..MOST_STARTS {
        out[t] = next[t + back] < limit && row[t];
        limit += 1;
    }
    out
}

// The starts of `row` that the other row supports, of which are known its next starts, its least start and one past its
// last. Where one lag asks nothing the other one needs only one of the ends. Left free: which other starts of `row`
// stay.
pub fn supported(
    next: &NextStarts,
    least: usize,
    end: usize,
    row: Row,
    there: usize,
    back: usize,
) -> Row
    requires { (there ≤ most_shift) × (back ≤ most_shift) × (least ≤ most_starts) × (end ≤ most_starts) }
    ensures { SupportedBy least end next.now row there back result }
{
    if two_sided(there, back) {
        return supported_both(next, row, there, back);
    }
    if back == 0 {
        return domain::from_start(row, (least + there).saturating_sub(MOST_STARTS));
    }
    domain::below(row, (end + MOST_STARTS).saturating_sub(back))
}
