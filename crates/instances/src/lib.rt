// Instances for starts: operations of one type that hold a slot in common get different ones. They are the colours of
// the graph of those that clash.
// An inner layer, a crate of its own for the check's time: its functions ask for counts within their arrays, and
// `seatable` for a limited type.
// Callers: task::is_plan, and schedule::plan_at for a plan's starts. Their task has its numbers within its arrays
// (`TaskOk`), and the type has passed a test.
#![tactic(auto)]

ghost use Rattle.std.specs.Prelude.{◌≡◌, true, false, ℕ, ◌≤◌, ◌<◌};
ghost use Rattle.sizes.specs.Sizes.{most_operations, most_types, most_instances};
ghost use Rattle.laws.specs.Entry.{vec};
ghost use Rattle.laws.specs.Says.{Says};
ghost use Rattle.held_slots.specs.Seated.{Clash};
ghost use Rattle.instances.specs.Seats.{ClashRow, ClashTable, Seatable, FirstSeats, Merge, WithType, Seats};

use colouring::{Edges, Marks, Question};
use sizes::{MOST_OPERATIONS, MOST_TYPES};

// So many operations, the type and the start of each, and the interval after which their slots come round.
#[derive(Clone, Copy)]
pub struct Starts<'a> {
    pub resource: &'a [usize; MOST_OPERATIONS],
    pub starts: &'a [usize; MOST_OPERATIONS],
    pub count: usize,
    pub interval: usize,
    ghost count_ok: { count ≤ most_operations },
}

// A type: its instances (0: unlimited), and the slots that each stays busy.
#[derive(Clone, Copy)]
pub struct Kind {
    pub number: usize,
    pub limit: usize,
    pub busy: usize,
    ghost limit_ok: { limit ≤ most_instances },
}

// Whether the operations i and j are two of the type, and clash.
fn clash(ops: Starts, kind: Kind, i: usize, j: usize) -> bool
    requires { (i < most_operations) × (j < most_operations) }
    ensures { Says (Clash (vec ops.entry.resource.now) (vec ops.entry.starts.now) ops.entry.interval kind.busy kind.number i j) result }
{
    let (first, second) = (ops.starts[i], ops.starts[j]);
    i != j
        && ops.resource[i] == kind.number
        && ops.resource[j] == kind.number
        && held_slots::meet(ops.interval, kind.busy, kind.busy, first, second)
}

// The operations that clash with i.
fn clash_row(ops: Starts, kind: Kind, i: usize) -> Marks
    requires { i < ops.count }
    ensures { ClashRow ops.entry.count (vec ops.entry.resource.now) (vec ops.entry.starts.now) ops.entry.interval kind.busy kind.number i result }
{
    let mut row = [false; MOST_OPERATIONS];
    for j in 0..ops.count {
        row[j] = clash(ops, kind, i, j);
    }
    row
}

// The graph of the operations of a type that clash.
fn clash_table(ops: Starts, kind: Kind) -> Edges
    ensures { ClashTable ops.entry.count (vec ops.entry.resource.now) (vec ops.entry.starts.now) ops.entry.interval kind.busy kind.number result }
{
    let mut c = [[false; MOST_OPERATIONS]; MOST_OPERATIONS];
    for i in 0..ops.count {
        c[i] = clash_row(ops, kind, i);
    }
    c
}

// Whether the starts have instances in a type.
pub fn seatable(ops: Starts, kind: Kind) -> bool
    requires { 0 < kind.limit }
    ensures { Says (Seatable ops.entry.count (vec ops.entry.resource.now) ops.entry.interval kind.limit kind.busy kind.number (vec ops.entry.starts.now)) result }
{
    let clashes = clash_table(ops, kind);
    let question = Question {
        count: ops.count,
        edges: &clashes,
        limit: kind.limit,
    };
    colouring::some_colouring(question).is_some()
}

// The first instances for the starts in a type, if they have any.
fn type_instances(ops: Starts, kind: Kind) -> [usize; MOST_OPERATIONS]
    requires { 0 < kind.limit }
    ensures { FirstSeats ops.entry.count (vec ops.entry.resource.now) ops.entry.interval kind.limit kind.busy kind.number (vec ops.entry.starts.now) (vec result) }
{
    let clashes = clash_table(ops, kind);
    let question = Question {
        count: ops.count,
        edges: &clashes,
        limit: kind.limit,
    };
    colouring::first_colouring(question).unwrap_or([0; MOST_OPERATIONS])
}

// `inside` in a type, and `outside` elsewhere.
fn merge(
    ops: Starts,
    outside: &[usize; MOST_OPERATIONS],
    inside: &[usize; MOST_OPERATIONS],
    kind: usize,
) -> [usize; MOST_OPERATIONS]
    ensures { Merge ops.entry.count (vec ops.entry.resource.now) kind (vec outside.now) (vec inside.now) (vec result) }
{
    let mut out = *outside;
    for i in 0..ops.count {
        if ops.resource[i] == kind {
            out[i] = inside[i];
        }
    }
    out
}

// The instances `before` with the first ones in a type, if it is limited.
fn with_type(ops: Starts, before: &[usize; MOST_OPERATIONS], kind: Kind) -> [usize; MOST_OPERATIONS]
    ensures { WithType ops.entry.count (vec ops.entry.resource.now) ops.entry.interval kind.limit kind.busy kind.number (vec ops.entry.starts.now) (vec before.now) (vec result) }
{
    if kind.limit == 0 {
        return *before;
    }
    merge(ops, before, &type_instances(ops, kind), kind.number)
}

// The first instances for the starts, if they have any; 0 in an unlimited type. Left free: those of a limited type in
// which the starts have none, and entries past the count; schedule::plan_at asks for a plan's starts, and puts 0 past
// it.
pub fn instances(
    resource: [usize; MOST_OPERATIONS],
    limits: [usize; MOST_TYPES],
    busy: [usize; MOST_TYPES],
    starts: [usize; MOST_OPERATIONS],
    count: usize,
    interval: usize,
) -> [usize; MOST_OPERATIONS]
    requires { (count ≤ most_operations) × ((kind : ℕ) → kind < most_types → vec limits kind ≤ most_instances) }
    ensures { Seats count (vec resource) (vec limits) (vec busy) interval (vec starts) (vec result) }
{
    let ops = Starts {
        resource: &resource,
        starts: &starts,
        count,
        interval,
    };
    let mut u = [0usize; MOST_OPERATIONS];
    for number in 0..MOST_TYPES {
        let kind = Kind {
            number,
            limit: limits[number],
            busy: busy[number],
        };
        u = with_type(ops, &u, kind);
    }
    u
}
