// A task is a loop sheet at one interval, as the plan search reads it; here is the test whether starts are a plan's.
// An inner layer, a crate of its own for the check's time: `is_plan` asks for a task whose numbers are within its
// arrays (`TaskOk`) and for starts below MOST_STARTS, `count_of` for a count within its array.
// Callers: `search`, with the least starts of a domain; `saturation` and `seats`, with the operations of a task. The
// task comes from schedule::plan_at, which proves `TaskOk` from the sheet, or from `relax`, which makes it from that one.
#![tactic(auto)]

ghost use Rattle.std.specs.Prelude.{◌≡◌, true, false, ℕ, ◌≤◌, ◌<◌, eqb, pos, ◌+ℤ◌, ◌≤ℤ◌};
ghost use Rattle.sizes.specs.Sizes.{most_operations, most_types, most_starts};
ghost use Rattle.laws.specs.Entry.{vec};
ghost use Rattle.laws.specs.Says.{Says};
ghost use Rattle.laws.specs.Count.{tally};
ghost use Rattle.held_slots.specs.Seated.{near_w};
ghost use Rattle.task.specs.Plan.{SmallLag, LagsFrom, LagsKept, PlanOf, TaskOk, Small, Overfull, RoomKept, Roomy, TypeSeated, Seated, type_of, instances_of, busy_of, in_stretch};

use instances::{Kind, Starts};
use sizes::{MOST_OPERATIONS, MOST_TYPES};

// Pairs of operations: a lag for each, row by row.
pub const PAIRS: usize = MOST_OPERATIONS * MOST_OPERATIONS;

// The type of an operation that is of none: it asks for no instance.
pub const NO_TYPE: usize = MOST_TYPES;

// A sheet at one interval: the lags that every plan keeps, one for each pair of operations, the type of each operation,
// the instances of each type (0: unlimited) and the slots that an operation holds its instance.
// A hint, which promises nothing: `near` marks the pairs whose lags are worth a look.
#[repr(C)]
#[derive(Clone, Copy)]
pub struct Task {
    pub ops: usize,
    pub interval: usize,
    pub resource: [usize; MOST_OPERATIONS],
    pub instances: [usize; MOST_TYPES],
    pub busy: [usize; MOST_TYPES],
    pub lag: [i32; PAIRS],
    pub near: [bool; PAIRS],
}

// Whether two starts keep a lag.
// Kept: casts of starts, which are below MOST_STARTS; try_from would give an error that cannot be.
fn meets(from: usize, lag: i32, to: usize) -> bool
    requires { (from < most_starts) × (to < most_starts) × SmallLag lag }
    ensures { Says ((pos from +ℤ lag) ≤ℤ pos to) result }
{
    from as i32 + lag <= to as i32
}

// Whether the starts keep each lag from operation i. The task is lent here and below, as it is copied where it is handed
// over.
fn lags_from(p: &Task, starts: &[usize; MOST_OPERATIONS], i: usize) -> bool
    requires { TaskOk p.now × Small p.now.ops starts.now × (i < p.now.ops) }
    ensures { Says (LagsFrom p.now.ops p.now.lag (vec starts.now) i) result }
{
    for j in 0..p.ops {
        if !meets(starts[i], p.lag[i * MOST_OPERATIONS + j], starts[j]) {
            return false;
        }
    }
    true
}

// Whether the starts keep every lag.
fn lags_kept(p: &Task, starts: &[usize; MOST_OPERATIONS]) -> bool
    requires { TaskOk p.now × Small p.now.ops starts.now }
    ensures { Says (LagsKept p.now.ops p.now.lag (vec starts.now)) result }
{
    for i in 0..p.ops {
        if !lags_from(p, starts, i) {
            return false;
        }
    }
    true
}

// Whether operation i is of the type `kind` and starts less slots after this one than the type stays busy.
fn near(p: &Task, starts: &[usize; MOST_OPERATIONS], kind: usize, slot: usize, i: usize) -> bool
    requires { (slot < p.now.interval) × (kind < most_types) × (i < most_operations) }
    ensures { result ≡ near_w (type_of p.now) (vec starts.now) p.now.interval kind slot (busy_of p.now kind) i }
{
    p.resource[i] == kind
        && held_slots::offset(p.interval, slot, starts[i] % p.interval) < p.busy[kind]
}

// How many operations of a type start less slots after this one than the type stays busy.
#[tactic(auto, using(crate::specs::PlanLaws::tally_next, crate::specs::PlanLaws::tally_start))]
fn crowd(p: &Task, starts: &[usize; MOST_OPERATIONS], kind: usize, slot: usize) -> usize
    requires { (slot < p.now.interval) × (kind < most_types) × (p.now.ops ≤ most_operations) }
    ensures { result ≡ tally p.now.ops (near_w (type_of p.now) (vec starts.now) p.now.interval kind slot (busy_of p.now kind)) }
{
    let mut c = 0;
    for i in 0..p.ops {
        c += usize::from(near(p, starts, kind, slot, i));
    }
    c
}

// Whether the stretch of as many slots as the type of operation i stays busy, from its start on, has more starts of the
// type than instances; a type with 0 instances is unlimited.
fn overfull(p: &Task, starts: &[usize; MOST_OPERATIONS], i: usize) -> bool
    requires { TaskOk p.now × (i < p.now.ops) }
    ensures { Says (Overfull p.now.ops (type_of p.now) (instances_of p.now) (busy_of p.now) p.now.interval (vec starts.now) i) result }
{
    let kind = p.resource[i];
    if MOST_TYPES <= kind {
        return false;
    }
    let limit = p.instances[kind];
    let count = crowd(p, starts, kind, starts[i] % p.interval);
    0 < limit && limit < count
}

// Whether no stretch of as many slots as a type stays busy has more starts of it than the type has instances, as far as
// the stretches from each start on tell. Where one has, there is no need to look for instances.
fn room_kept(p: &Task, starts: &[usize; MOST_OPERATIONS]) -> bool
    requires { TaskOk p.now }
    ensures { RoomKept p.now (vec starts.now) result }
{
    for i in 0..p.ops {
        if overfull(p, starts, i) {
            return false;
        }
    }
    true
}

// Whether the starts have instances in a type, if it is limited. Where it stays busy for one slot, there is one for each
// as no stretch has too many.
#[tactic(auto, using(crate::specs::PlanLaws::one_seated, crate::specs::PlanLaws::type_seated))]
fn type_seated(p: &Task, starts: &[usize; MOST_OPERATIONS], kind: usize) -> bool
    requires { TaskOk p.now × Roomy p.now (vec starts.now) × (kind < most_types) }
    ensures { Says (TypeSeated p.now kind (vec starts.now)) result }
{
    let limit = p.instances[kind];
    let busy = p.busy[kind];
    if limit == 0 || busy == 1 {
        return true;
    }
    let ops = Starts {
        resource: &p.resource,
        starts,
        count: p.ops,
        interval: p.interval,
    };
    let number = kind;
    instances::seatable(
        ops,
        Kind {
            number,
            limit,
            busy,
        },
    )
}

// Whether the starts have instances in each limited type.
fn seated(p: &Task, starts: &[usize; MOST_OPERATIONS]) -> bool
    requires { TaskOk p.now × Roomy p.now (vec starts.now) }
    ensures { Says (Seated p.now (vec starts.now)) result }
{
    for kind in 0..MOST_TYPES {
        if !type_seated(p, starts, kind) {
            return false;
        }
    }
    true
}

// Whether the starts are a plan's.
pub fn is_plan(p: Task, starts: [usize; MOST_OPERATIONS]) -> bool
    requires { TaskOk p × Small p.ops starts }
    ensures { Says (PlanOf p (vec starts)) result }
{
    lags_kept(&p, &starts) && room_kept(&p, &starts) && seated(&p, &starts)
}

// How many operations are of the type.
#[tactic(auto, using(crate::specs::PlanLaws::tally_next, crate::specs::PlanLaws::tally_start))]
pub fn count_of(resource: &[usize; MOST_OPERATIONS], count: usize, kind: usize) -> usize
    requires { count ≤ most_operations }
    ensures { (result ≡ tally count (λ i. eqb (vec resource.now i) kind)) × (result ≤ most_operations) }
{
    let mut c = 0;
    for i in 0..count {
        c += usize::from(resource[i] == kind);
    }
    c
}
