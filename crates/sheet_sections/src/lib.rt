// Reads a section of a loop sheet: the line with a count, then as many lines. sheet_lines/specs/Found.antt says what is
// found. A crate of its own for the check's time. Caller: `reader`, with a place within the bytes, as for `sheet_lines`.
#![tactic(auto)]

ghost use Rattle.std.specs.Prelude.{[], ◌≤◌, drop, length};
ghost use Rattle.sizes.specs.Sizes.{most_types, most_operations, most_edges};
ghost use Rattle.dependence.specs.Graph.{no_edge};
ghost use Rattle.sheet.specs.Sheet.{no_operation, no_type};
ghost use Rattle.sheet_lines.specs.Found.{lines_from, section_from};
ghost use Rattle.sheet_lines.specs.Kinds.{edge_kind, edges_kind, op_kind, ops_kind, type_kind, types_kind};
ghost use Rattle.sheet_lines.specs.Seen.{Entries, Refuses};

use dependence::Edge;
use sheet::{Field, NO_EDGE, NO_OPERATION, NO_TYPE, Operation, ResourceType};
use sheet_lines::{read_edge, read_number, read_op, read_type};
use sizes::{MOST_EDGES, MOST_OPERATIONS, MOST_TYPES};

#[derive(Clone, Copy)]
pub struct TypesRead {
    pub answer: usize,
    pub count: usize,
    pub entries: [ResourceType; MOST_TYPES],
    pub next: usize,
}

fn no_types(answer: usize, at: usize) -> TypesRead
    ensures { Refuses answer at most_types no_type result.answer result.count result.entries result.next }
{
    TypesRead {
        answer,
        count: 0,
        entries: [NO_TYPE; MOST_TYPES],
        next: at,
    }
}

// Count lines of types, from `at`.
fn type_lines(s: &[u8], at: usize, count: usize) -> TypesRead
    requires { (at ≤ length s.now) × (count ≤ most_types) }
    ensures { Entries most_types no_type s.now result.answer result.count result.entries result.next (lines_from type_kind count [] (drop at s.now)) }
{
    let mut entries = [NO_TYPE; MOST_TYPES];
    let mut p = at;
    let mut i: usize = 0;
    while i < count {
        let line = read_type(s, p);
        if line.answer != 0 {
            return no_types(line.answer, line.next);
        }
        let entry = line.entry;
        entries[i] = entry;
        p = line.next;
        i += 1;
    }
    TypesRead {
        answer: 0,
        count,
        entries,
        next: p,
    }
}

// The line `types=` with a count, and that many lines of types.
pub fn read_types(s: &[u8], at: usize) -> TypesRead
    requires { at ≤ length s.now }
    ensures { Entries most_types no_type s.now result.answer result.count result.entries result.next (section_from types_kind type_kind (drop at s.now)) }
{
    let count = read_number(s, at, b"types=", Field::Types);
    if count.answer != 0 {
        return no_types(count.answer, count.next);
    }
    type_lines(s, count.next, count.value)
}

#[derive(Clone, Copy)]
pub struct OpsRead {
    pub answer: usize,
    pub count: usize,
    pub entries: [Operation; MOST_OPERATIONS],
    pub next: usize,
}

fn no_ops(answer: usize, at: usize) -> OpsRead
    ensures { Refuses answer at most_operations no_operation result.answer result.count result.entries result.next }
{
    OpsRead {
        answer,
        count: 0,
        entries: [NO_OPERATION; MOST_OPERATIONS],
        next: at,
    }
}

// Count lines of operations, from `at`.
fn op_lines(s: &[u8], at: usize, count: usize, types: usize, horizon: usize) -> OpsRead
    requires { (at ≤ length s.now) × (count ≤ most_operations) }
    ensures { Entries most_operations no_operation s.now result.answer result.count result.entries result.next (lines_from (op_kind types horizon) count [] (drop at s.now)) }
{
    let mut entries = [NO_OPERATION; MOST_OPERATIONS];
    let mut p = at;
    let mut i: usize = 0;
    while i < count {
        let line = read_op(s, p, types, horizon);
        if line.answer != 0 {
            return no_ops(line.answer, line.next);
        }
        let entry = line.entry;
        entries[i] = entry;
        p = line.next;
        i += 1;
    }
    OpsRead {
        answer: 0,
        count,
        entries,
        next: p,
    }
}

// The line `ops=` with a count, and that many lines of operations.
pub fn read_ops(s: &[u8], at: usize, types: usize, horizon: usize) -> OpsRead
    requires { at ≤ length s.now }
    ensures { Entries most_operations no_operation s.now result.answer result.count result.entries result.next (section_from ops_kind (op_kind types horizon) (drop at s.now)) }
{
    let count = read_number(s, at, b"ops=", Field::Operations);
    if count.answer != 0 {
        return no_ops(count.answer, count.next);
    }
    op_lines(s, count.next, count.value, types, horizon)
}

#[derive(Clone, Copy)]
pub struct EdgesRead {
    pub answer: usize,
    pub count: usize,
    pub entries: [Edge; MOST_EDGES],
    pub next: usize,
}

fn no_edges(answer: usize, at: usize) -> EdgesRead
    ensures { Refuses answer at most_edges no_edge result.answer result.count result.entries result.next }
{
    EdgesRead {
        answer,
        count: 0,
        entries: [NO_EDGE; MOST_EDGES],
        next: at,
    }
}

// Count lines of edges, from `at`.
fn edge_lines(s: &[u8], at: usize, count: usize, ops: usize) -> EdgesRead
    requires { (at ≤ length s.now) × (count ≤ most_edges) }
    ensures { Entries most_edges no_edge s.now result.answer result.count result.entries result.next (lines_from (edge_kind ops) count [] (drop at s.now)) }
{
    let mut entries = [NO_EDGE; MOST_EDGES];
    let mut p = at;
    let mut i: usize = 0;
    while i < count {
        let line = read_edge(s, p, ops);
        if line.answer != 0 {
            return no_edges(line.answer, line.next);
        }
        let entry = line.entry;
        entries[i] = entry;
        p = line.next;
        i += 1;
    }
    EdgesRead {
        answer: 0,
        count,
        entries,
        next: p,
    }
}

// The line `edges=` with a count, and that many lines of edges.
pub fn read_edges(s: &[u8], at: usize, ops: usize) -> EdgesRead
    requires { at ≤ length s.now }
    ensures { Entries most_edges no_edge s.now result.answer result.count result.entries result.next (section_from edges_kind (edge_kind ops) (drop at s.now)) }
{
    let count = read_number(s, at, b"edges=", Field::Edges);
    if count.answer != 0 {
        return no_edges(count.answer, count.next);
    }
    edge_lines(s, count.next, count.value, ops)
}
