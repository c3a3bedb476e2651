// Reads the tree of a denial and judges it at once: the lines are gone through from the top, and each node is judged by
// what the cuts above it leave. An inner layer of `judge`, a crate of its own for the check's time: it asks for a sheet
// in range and an interval up to its cap. The only caller is `judge`, which has put those questions.
#![tactic(auto)]

ghost use Rattle.std.specs.Prelude.{◌≡◌, ◌+◌, ◌≤◌, ◌<◌, drop};
ghost use Rattle.sheet.specs.Sheet.{InRange, Interval};
ghost use Rattle.denial.specs.At.{rules_at};
ghost use Rattle.tree_boxes.specs.Bounds.{box_of, Small};
ghost use Rattle.tree_judge.specs.Reading.{most_lines, most_cuts, tree_from};
ghost use Rattle.tree_judge.specs.Verdicts.{leaf_fault, cut_fault, Judges, RootJudged};

use sheet::Sheet;
use tree_boxes::{Bounds, above, root, up_to};
use tree_lines::{Node, read_node};
use tree_nodes::{cut_allowed, leaf_so};

// The most lines of an answer.
const MOST_LINES: usize = 1024;

// The most splits and seats above a leaf.
const MOST_CUTS: usize = 64;

// A tree that was read: the place after it, the number of the line after it, and the line of its first node that is
// not so.
#[derive(Clone, Copy)]
pub struct Judged {
    pub next: usize,
    pub line: usize,
    pub fault: Option<usize>,
}

// The number of the line at which reading stopped, of bytes that hold no tree.
#[derive(Clone, Copy)]
pub struct Unread {
    pub line: usize,
}

// The line at fault of a leaf at this line.
fn leaf_fault(so: bool, line: usize) -> Option<usize>
    ensures { result ≡ leaf_fault so line }
{
    if so { None } else { Some(line) }
}

// The first line at fault of a cut at this line, by those of its two parts.
fn cut_fault(
    allowed: bool,
    line: usize,
    first: Option<usize>,
    second: Option<usize>,
) -> Option<usize>
    ensures { result ≡ cut_fault allowed line first second }
{
    if allowed {
        first.or(second)
    } else {
        Some(line)
    }
}

// The tree at the place `at`, whose first line has this number, with at most `depth` cuts above a leaf.
fn judge_tree(
    s: &[u8],
    at: usize,
    sheet: Sheet,
    interval: usize,
    b: Bounds,
    depth: usize,
    line: usize,
) -> Result<Judged, Unread>
    requires { InRange sheet × Interval sheet interval × Small b × (0 < line) × (line ≤ most_lines + 1) }
    ensures { Judges (rules_at sheet interval) (box_of b) s.now line (tree_from sheet.op_count sheet.edge_count depth line (drop at s.now)) result }
{
    if MOST_LINES < line {
        return Err(Unread { line });
    }
    let Some(found) = read_node(s, at, sheet.op_count, sheet.edge_count) else {
        return Err(Unread { line });
    };
    let cut = match found.node {
        Node::Cutting(cut) => cut,
        Node::Closing(leaf) => {
            let so = leaf_so(sheet, interval, b, leaf);
            return Ok(Judged {
                next: found.next,
                line: line + 1,
                fault: leaf_fault(so, line),
            });
        }
    };
    if depth == 0 {
        return Err(Unread { line });
    }
    let below = up_to(b, cut);
    let first = judge_tree(s, found.next, sheet, interval, below, depth - 1, line + 1)?;
    let rest = above(b, cut);
    let second = judge_tree(s, first.next, sheet, interval, rest, depth - 1, first.line)?;
    let allowed = cut_allowed(sheet, interval, cut);
    Ok(Judged {
        next: second.next,
        line: second.line,
        fault: cut_fault(allowed, line, first.fault, second.fault),
    })
}

// The tree at the place `at`, whose first line has this number, judged from the root.
pub fn judge_from(
    s: &[u8],
    at: usize,
    sheet: Sheet,
    interval: usize,
    line: usize,
) -> Result<Judged, Unread>
    requires { InRange sheet × Interval sheet interval × (0 < line) × (line ≤ most_lines + 1) }
    ensures { RootJudged sheet interval s.now line (tree_from sheet.op_count sheet.edge_count most_cuts line (drop at s.now)) result }
{
    judge_tree(s, at, sheet, interval, root(sheet), MOST_CUTS, line)
}
