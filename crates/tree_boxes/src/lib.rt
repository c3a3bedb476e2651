// What is left to each operation: everything at the root of a denial's tree, and the two parts that a cut makes of it.
// specs/Bounds.antt says which box the bounds are.
// An inner layer, a crate of its own for the check's time. Its functions ask for a sheet in range and an interval up to
// the cap, for operations that the sheet has, and for bounds of at most five digits (`Small`).
// Caller: `tree_judge`, with nodes read by `tree_lines`, as for `tree_nodes`. `root`, `up_to` and `above` themselves keep
// the bounds small.
#![tactic(auto)]

ghost use Rattle.std.specs.Prelude.{◌≡◌, ◌≤◌, ◌<◌, ◌-◌, pos, ◌-ℤ◌};
ghost use Rattle.sizes.specs.Sizes.{most_operations};
ghost use Rattle.text.specs.Sizes.{four_digits};
ghost use Rattle.sheet.specs.Sheet.{InRange};
ghost use Rattle.denial.specs.Box.{lesser};
ghost use Rattle.denial.specs.Passes as passes;
ghost use Rattle.denial.specs.Agree.{Agree};
ghost use Rattle.denial.specs.At.{root_at};
ghost use Rattle.tree_lines.specs.Node.{cut_seen};
ghost use Rattle.tree_boxes.specs.Bounds.{box_of, root_left, CutBelow, Small};

use sheet::Sheet;
use sizes::MOST_OPERATIONS;
use tree_lines::Cut;

// The lowest and the highest start left to an operation, and its first and last instance. A highest start may be
// negative, and then no start is left.
#[derive(Clone, Copy)]
pub struct Left {
    pub lowest: usize,
    pub highest: i32,
    pub first: usize,
    pub last: usize,
}

// What an operation past those of the sheet has.
const NOTHING: Left = Left {
    lowest: 0,
    highest: 0,
    first: 0,
    last: 0,
};

#[derive(Clone, Copy)]
pub struct Bounds {
    pub each: [Left; MOST_OPERATIONS],
}

// The lesser of a start, which may be negative, and a number of at most four digits.
fn lesser_of(z: i32, v: usize) -> i32
    requires { v ≤ four_digits }
    ensures { result ≡ lesser z v }
{
    z.min(v as i32)
}

// The part up to the number of a cut.
pub fn up_to(b: Bounds, cut: Cut) -> Bounds
    requires { CutBelow cut × Small b }
    ensures { (box_of result ≡ passes.up_to (box_of b) (cut_seen cut)) × Small result }
{
    let mut c = b;
    match cut {
        Cut::Split(i, v) => c.each[i].highest = lesser_of(b.each[i].highest, v),
        Cut::Seat(i, k) => c.each[i].last = b.each[i].last.min(k),
    }
    c
}

// The part above it.
pub fn above(b: Bounds, cut: Cut) -> Bounds
    requires { CutBelow cut × Small b }
    ensures { (box_of result ≡ passes.above (box_of b) (cut_seen cut)) × Small result }
{
    let mut c = b;
    match cut {
        Cut::Split(i, v) => c.each[i].lowest = b.each[i].lowest.max(v + 1),
        Cut::Seat(i, k) => c.each[i].first = b.each[i].first.max(k + 1),
    }
    c
}

// The highest start of an operation at the root: the least of H − D, which may be negative, H − 1 and hi.
fn highest_of(horizon: usize, latency: usize, hi: usize) -> i32
    requires { (0 < horizon) × (horizon ≤ four_digits) × (latency ≤ four_digits) × (hi ≤ four_digits) }
    ensures { result ≡ lesser (lesser (pos horizon -ℤ pos latency) (horizon - 1)) hi }
{
    let finishes = horizon as i32 - latency as i32;
    lesser_of(lesser_of(finishes, horizon - 1), hi)
}

// What is left to an operation at the root. The only instance of an unlimited type is 0.
fn root_left(sheet: Sheet, i: usize) -> Left
    requires { InRange sheet × (i < sheet.op_count) }
    ensures { result ≡ root_left sheet i }
{
    let operation = sheet.ops[i];
    let kind = sheet.types[operation.resource];
    Left {
        lowest: operation.lo,
        highest: highest_of(sheet.horizon, kind.latency, operation.hi),
        first: 0,
        last: kind.instances.saturating_sub(1),
    }
}

// Everything that is left at the root.
pub fn root(sheet: Sheet) -> Bounds
    requires { InRange sheet }
    ensures { Agree sheet.op_count (box_of result) (root_at sheet) × Small result }
{
    let mut each = [NOTHING; MOST_OPERATIONS];
    for i in 0..sheet.op_count {
        each[i] = root_left(sheet, i);
    }
    Bounds { each }
}
