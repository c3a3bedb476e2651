// Reads a loop sheet from bytes: question 1, then line by line question 2 and what the line's entry answers. And finds
// the line at fault of bytes that are refused.
#![tactic(auto)]

ghost use Rattle.std.specs.Prelude.{◌≡◌, ◌≤◌, length};
ghost use Rattle.reader.specs.Fault.{fault_of, line_number};
ghost use Rattle.reader.specs.Read.{read_of};
ghost use Rattle.reader.specs.Whole.{WholeRead, as_read, refused_at};

use sheet::{Field, NO_EDGE, NO_OPERATION, NO_TYPE, Sheet};
use sheet_lines::{MALFORMED, read_number};
use sheet_sections::{EdgesRead, OpsRead, TypesRead, read_edges, read_ops, read_types};
use sizes::{MOST_EDGES, MOST_OPERATIONS, MOST_TYPES};

// Bytes of a sheet.
pub const LONGEST_SHEET: usize = 4096;

// The answer to question 1.
const TOO_LONG: usize = 1;

// The byte that ends a line.
const LINE_FEED: u8 = b'\n';

// The answer and, where it is 0, the sheet; with a refusal every number of the sheet is 0.
#[repr(C)]
#[derive(Clone, Copy)]
pub struct ReadAnswer {
    pub answer: usize,
    pub sheet: Sheet,
}

// The same, with the place after the last line; with a refusal, the place where what is refused begins.
#[derive(Clone, Copy)]
struct SheetRead {
    answer: usize,
    sheet: Sheet,
    next: usize,
}

fn refuse(answer: usize, at: usize) -> SheetRead
    ensures { result ≡ refused_at answer at }
{
    SheetRead {
        answer,
        sheet: Sheet {
            horizon: 0,
            cap: 0,
            type_count: 0,
            types: [NO_TYPE; MOST_TYPES],
            op_count: 0,
            ops: [NO_OPERATION; MOST_OPERATIONS],
            edge_count: 0,
            edges: [NO_EDGE; MOST_EDGES],
        },
        next: at,
    }
}

// The sheet of what was read.
fn accept(horizon: usize, cap: usize, types: TypesRead, ops: OpsRead, edges: EdgesRead) -> SheetRead
    ensures { result ≡ as_read horizon cap types.count ops.count edges.count types.entries ops.entries edges.entries edges.next }
{
    let type_entries = types.entries;
    let op_entries = ops.entries;
    let edge_entries = edges.entries;
    SheetRead {
        answer: 0,
        sheet: Sheet {
            horizon,
            cap,
            type_count: types.count,
            types: type_entries,
            op_count: ops.count,
            ops: op_entries,
            edge_count: edges.count,
            edges: edge_entries,
        },
        next: edges.next,
    }
}

// The sheet whose text these bytes are, or the number of the refusal and its place.
fn read_whole(bytes: &[u8]) -> SheetRead
    ensures { WholeRead bytes.now result }
{
    if LONGEST_SHEET < bytes.len() {
        return refuse(TOO_LONG, LONGEST_SHEET);
    }
    let horizon = read_number(bytes, 0, b"horizon=", Field::Horizon);
    if horizon.answer != 0 {
        return refuse(horizon.answer, horizon.next);
    }
    let cap = read_number(bytes, horizon.next, b"cap=", Field::Cap);
    if cap.answer != 0 {
        return refuse(cap.answer, cap.next);
    }
    let types = read_types(bytes, cap.next);
    if types.answer != 0 {
        return refuse(types.answer, types.next);
    }
    let ops = read_ops(bytes, types.next, types.count, horizon.value);
    if ops.answer != 0 {
        return refuse(ops.answer, ops.next);
    }
    let edges = read_edges(bytes, ops.next, ops.count);
    if edges.answer != 0 {
        return refuse(edges.answer, edges.next);
    }
    if edges.next < bytes.len() {
        return refuse(MALFORMED, edges.next);
    }
    accept(horizon.value, cap.value, types, ops, edges)
}

// The sheet whose text these bytes are, or the number of the refusal.
pub fn read(bytes: &[u8]) -> ReadAnswer
    ensures { result ≡ read_of bytes.now }
{
    let whole = read_whole(bytes);
    let sheet = whole.sheet;
    ReadAnswer {
        answer: whole.answer,
        sheet,
    }
}

// The number of the line that holds the byte at a place, counted from 1.
fn line_number(bytes: &[u8], at: usize) -> usize
    requires { at ≤ length bytes.now }
    ensures { result ≡ line_number at bytes.now }
{
    let mut line: usize = 1;
    let mut i: usize = 0;
    while i < at {
        if bytes[i] == LINE_FEED {
            line += 1;
        }
        i += 1;
    }
    line
}

// The number of the line at fault, counted from 1, where reading refuses these bytes; 0 where it accepts them.
pub fn line_at_fault(bytes: &[u8]) -> usize
    ensures { result ≡ fault_of bytes.now }
{
    let whole = read_whole(bytes);
    if whole.answer == 0 {
        return 0;
    }
    line_number(bytes, whole.next)
}
