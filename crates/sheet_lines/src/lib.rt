// Reads one line of a loop sheet: question 2, then what the line's entry answers. specs/Kinds.antt has the kinds of
// lines. A crate of its own for the check's time. Callers: `sheet_sections` and `reader`, which begin at the first byte
// and go on where a line ended, so that each place is within the bytes.
#![tactic(auto)]

ghost use Rattle.std.specs.Prelude.{◌≤◌, drop, length};
ghost use Rattle.sheet.specs.Ranges.{row_of};
ghost use Rattle.sheet_lines.specs.Found.{line_from};
ghost use Rattle.sheet_lines.specs.Kinds.{number_kind, type_kind, op_kind, edge_kind};
ghost use Rattle.sheet_lines.specs.Seen.{Reads};

use dependence::Edge;
use scan::NO_MINUS;
use sheet::{Field, NO_EDGE, NO_OPERATION, NO_TYPE, Operation, ResourceType};

// The answer to question 2.
pub const MALFORMED: usize = 2;

// The place of the delay, which may carry a minus, in its line.
const DELAY_PLACE: usize = 2;

#[derive(Clone, Copy)]
pub struct NumberRead {
    pub answer: usize,
    pub value: usize,
    pub next: usize,
}

// The line with this key and one number, in the range of a field.
pub fn read_number(s: &[u8], at: usize, key: &[u8], field: Field) -> NumberRead
    requires { at ≤ length s.now }
    ensures { Reads s.now result.answer result.value result.next (line_from (number_kind key.now (row_of field)) (drop at s.now)) }
{
    let Some(line) = scan::read_line(s, at, key, 1, NO_MINUS) else {
        return NumberRead {
            answer: MALFORMED,
            value: 0,
            next: at,
        };
    };
    let values = line.values;
    let value = values[0] as usize;
    if let Err(refusal) = sheet::number_answer(field, value) {
        return NumberRead {
            answer: refusal.number(),
            value: 0,
            next: at,
        };
    }
    NumberRead {
        answer: 0,
        value,
        next: line.next,
    }
}

#[derive(Clone, Copy)]
pub struct TypeRead {
    pub answer: usize,
    pub entry: ResourceType,
    pub next: usize,
}

// The line `type=A,D,K`.
pub fn read_type(s: &[u8], at: usize) -> TypeRead
    requires { at ≤ length s.now }
    ensures { Reads s.now result.answer result.entry result.next (line_from type_kind (drop at s.now)) }
{
    let Some(line) = scan::read_line(s, at, b"type=", 3, NO_MINUS) else {
        return TypeRead {
            answer: MALFORMED,
            entry: NO_TYPE,
            next: at,
        };
    };
    let values = line.values;
    let instances = values[0] as usize;
    let latency = values[1] as usize;
    let busy = values[2] as usize;
    let entry = ResourceType {
        instances,
        latency,
        busy,
    };
    if let Err(refusal) = sheet::type_answer(entry) {
        return TypeRead {
            answer: refusal.number(),
            entry: NO_TYPE,
            next: at,
        };
    }
    TypeRead {
        answer: 0,
        entry,
        next: line.next,
    }
}

#[derive(Clone, Copy)]
pub struct OpRead {
    pub answer: usize,
    pub entry: Operation,
    pub next: usize,
}

// The line `op=r,lo,hi`, where r is below the count of types, lo and hi below the horizon, and lo is at most hi.
pub fn read_op(s: &[u8], at: usize, types: usize, horizon: usize) -> OpRead
    requires { at ≤ length s.now }
    ensures { Reads s.now result.answer result.entry result.next (line_from (op_kind types horizon) (drop at s.now)) }
{
    let Some(line) = scan::read_line(s, at, b"op=", 3, NO_MINUS) else {
        return OpRead {
            answer: MALFORMED,
            entry: NO_OPERATION,
            next: at,
        };
    };
    let values = line.values;
    let resource = values[0] as usize;
    let lo = values[1] as usize;
    let hi = values[2] as usize;
    let entry = Operation { resource, lo, hi };
    if let Err(refusal) = sheet::op_answer(types, horizon, entry) {
        return OpRead {
            answer: refusal.number(),
            entry: NO_OPERATION,
            next: at,
        };
    }
    OpRead {
        answer: 0,
        entry,
        next: line.next,
    }
}

#[derive(Clone, Copy)]
pub struct EdgeRead {
    pub answer: usize,
    pub entry: Edge,
    pub next: usize,
}

// The line `edge=i,j,d,b`, where i and j are below the count of operations.
pub fn read_edge(s: &[u8], at: usize, ops: usize) -> EdgeRead
    requires { at ≤ length s.now }
    ensures { Reads s.now result.answer result.entry result.next (line_from (edge_kind ops) (drop at s.now)) }
{
    let Some(line) = scan::read_line(s, at, b"edge=", 4, DELAY_PLACE) else {
        return EdgeRead {
            answer: MALFORMED,
            entry: NO_EDGE,
            next: at,
        };
    };
    let values = line.values;
    let entry = Edge {
        from: values[0] as usize,
        to: values[1] as usize,
        delay: values[2],
        distance: values[3] as usize,
    };
    if let Err(refusal) = sheet::edge_answer(ops, entry) {
        return EdgeRead {
            answer: refusal.number(),
            entry: NO_EDGE,
            next: at,
        };
    }
    EdgeRead {
        answer: 0,
        entry,
        next: line.next,
    }
}
