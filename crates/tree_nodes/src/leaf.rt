// The tests of a tree's nodes: whether a cut is allowed, and whether a leaf is so.
ghost use Rattle.std.specs.Prelude.{◌≡◌, ◌≤◌, ◌<◌, pos, ◌+ℤ◌, ◌<ℤ◌, length};
ghost use Rattle.sizes.specs.Sizes.{most_operations};
ghost use Rattle.laws.specs.Says.{Says};
ghost use Rattle.scan_list.specs.List.{most_items};
ghost use Rattle.dependence.specs.Rules.{BadWalk};
ghost use Rattle.sheet.specs.Sheet.{InRange, Interval, graph_of};
ghost use Rattle.denial.specs.Tree.{Below, LeafKnown};
ghost use Rattle.denial.specs.Passes.{Pinned, Late, Clash, So, Allowed};
ghost use Rattle.denial.specs.At.{rules_at};
ghost use Rattle.tree_lines.specs.Node.{cut_seen, leaf_seen};
ghost use Rattle.tree_boxes.specs.Within.{Within, most_bound};
ghost use Rattle.tree_boxes.specs.Bounds.{box_of, Small};
ghost use Rattle.tree_nodes.specs.Chain.{most_sum};
ghost use Rattle.tree_nodes.specs.Counted.{Counted};

use crate::chain::chained;
use sheet::Sheet;
use tree_boxes::Bounds;
use tree_lines::{Cut, Leaf};

// Only a limited operation's instances are cut. The interval is for the contract alone.
pub fn cut_allowed(sheet: Sheet, interval: usize, cut: Cut) -> bool
    ensures { Says (Allowed (rules_at sheet interval) (cut_seen cut)) result }
{
    match cut {
        Cut::Split(_, _) => true,
        Cut::Seat(i, _) => 0 < operations::instances_of(sheet, i),
    }
}

// `loop=`: a bad closed walk.
fn loop_so(sheet: Sheet, interval: usize, edges: &[usize]) -> bool
    requires in_range { InRange sheet × Interval sheet interval × (0 < length edges.now) × (length edges.now ≤ most_items) }
    requires below { Below sheet.edge_count edges.now }
    ensures { Says (BadWalk (graph_of sheet) interval edges.now) result }
{
    let e = sheet.edges[edges[0]];
    match chained(sheet, interval, edges, e.from) {
        Some(w) => w.end == e.from && 0 < w.sum,
        None => false,
    }
}

// Whether the lowest start plus a chain's sum is past the highest start.
fn exceeds(highest: i32, lowest: usize, sum: i32) -> bool
    requires { (lowest ≤ most_bound) × Within most_sum sum }
    ensures { Says (highest <ℤ (pos lowest +ℤ sum)) result }
{
    highest < lowest as i32 + sum
}

// `late=`: the lowest start left to i plus the chain's sum exceeds the highest left to its end.
fn late_so(sheet: Sheet, interval: usize, b: Bounds, i: usize, edges: &[usize]) -> bool
    requires in_range { InRange sheet × Interval sheet interval × Small b × (i < sheet.op_count) × (length edges.now ≤ most_items) }
    requires below { Below sheet.edge_count edges.now }
    ensures { Says (Late (rules_at sheet interval) (box_of b) i edges.now) result }
{
    match chained(sheet, interval, edges, i) {
        Some(w) => exceeds(b.each[w.end].highest, b.each[i].lowest, w.sum),
        None => false,
    }
}

// Whether one start and one instance are left to an operation.
fn pinned(b: Bounds, i: usize) -> bool
    requires { (i < most_operations) × Small b }
    ensures { Says (Pinned (box_of b) i) result }
{
    let left = b.each[i];
    left.lowest as i32 == left.highest && left.first == left.last
}

// `clash=`: an operation that may not hold its instance at any start; or two rivals, both pinned, that overlap on one
// instance.
fn clash_so(sheet: Sheet, interval: usize, b: Bounds, i: usize, j: usize) -> bool
    requires { (i < most_operations) × (j < most_operations) × Small b }
    ensures { Says (Clash (rules_at sheet interval) (box_of b) i j) result }
{
    if i == j {
        return !start_rules::holds_allowed(sheet, interval, i, 0);
    }
    pinned(b, i)
        && pinned(b, j)
        && b.each[i].first == b.each[j].first
        && rules::rivals(sheet, i, j)
        && rules::overlap(sheet, interval, i, b.each[i].lowest, j, b.each[j].lowest)
}

// Whether a leaf is so.
pub fn leaf_so(sheet: Sheet, interval: usize, b: Bounds, leaf: Leaf) -> bool
    requires { InRange sheet × Interval sheet interval × Small b × Counted leaf × LeafKnown sheet.op_count sheet.edge_count (leaf_seen leaf) }
    ensures { Says (So (rules_at sheet interval) (box_of b) (leaf_seen leaf)) result }
{
    match leaf {
        Leaf::Loop(line) => loop_so(sheet, interval, &line.values[..line.count]),
        Leaf::Late(line) => late_so(
            sheet,
            interval,
            b,
            line.values[0],
            &line.values[1..line.count],
        ),
        Leaf::Clash(i, j) => clash_so(sheet, interval, b, i, j),
    }
}
