// Rule 3 of narrowing, seats, for types that stay busy: the operations that are down to one slot (they have a pin
// there) must have instances such that what is left free between them takes the others.
// An inner layer, a crate of its own for the check's time: `hopeless` asks for a task whose numbers are within its
// arrays (`TaskOk`).
// Caller: `narrow`, with a task of which its own caller proves `TaskOk`.
#![tactic(auto)]

ghost use Rattle.std.specs.Prelude.{◌≡◌, true, ℕ, ◌+◌, ◌*◌, ◌/◌, ◌-◌, ◌≤◌, ◌<◌, IfSome};
ghost use Rattle.sizes.specs.Sizes.{most_types, most_instances, most_intervals};
ghost use Rattle.laws.specs.Entry.{vec};
ghost use Rattle.task.specs.Plan.{TaskOk, PlanOf, instances_of, busy_of};
ghost use Rattle.seats.specs.Seating.{CaseOk, SeatsOk, Within, NextPin, Free, OneRoom, Roomy, with_pin, with_instance, Unseated, Hopeless};

mod pins;

use domain::Domain;
use pins::pins;
use sizes::{MOST_INSTANCES, MOST_OPERATIONS, MOST_TYPES};
use task::Task;

// One type of a task: so many of its operations (`total`) are of the type, on its instances, which stay busy for some
// slots of the interval. `pin` has the only slot of each that is down to one, else no slot of the interval.
#[derive(Clone, Copy)]
struct Case {
    ops: usize,
    interval: usize,
    instances: usize,
    busy: usize,
    total: usize,
    pin: [usize; MOST_OPERATIONS],
}

// What is known of the instances: `used` of them have pins; the slots of the first and the last pin of each, and how
// many operations it has at most from the first on and before the last.
#[derive(Clone, Copy)]
struct Seats {
    used: usize,
    first: [usize; MOST_INSTANCES],
    last: [usize; MOST_INSTANCES],
    taken: [usize; MOST_INSTANCES],
}

// The calls of `seat` for one type.
const MOST_CALLS: usize = 5000;

// Whether a key is not below `from` and below the best one.
fn nearer(from: usize, key: usize, best: usize) -> bool
    ensures { Within from key best result }
{
    from <= key && key < best
}

// The next operation with a pin, by slot and then by number, from the key `from` on. A key is a slot times
// MOST_OPERATIONS and an operation.
fn next_pin(case: Case, from: usize) -> Option<usize>
    requires { CaseOk case }
    ensures { IfSome result (λ x. NextPin case from x) }
{
    let mut next = None;
    let mut best = case.interval * MOST_OPERATIONS;
    for i in 0..case.ops {
        let key = case.pin[i] * MOST_OPERATIONS + i;
        if nearer(from, key, best) {
            next = Some(i);
            best = key;
        }
    }
    next
}

// Whether an instance whose first and last pins are so is free for `busy` slots from slot s on, not before them.
fn free(interval: usize, busy: usize, first: usize, last: usize, s: usize) -> bool
    requires { (interval ≤ most_intervals) × (busy ≤ interval) × (first ≤ interval) × (last ≤ interval) × (s ≤ interval) }
    ensures { Free interval busy first last s result }
{
    last + busy <= s && s + busy <= first + interval
}

// How many operations an instance takes: what is counted from its first pin to its last, and what fits from there round
// to the first; all round if it has none.
fn one_room(
    some: bool,
    interval: usize,
    busy: usize,
    first: usize,
    last: usize,
    taken: usize,
) -> usize
    requires { (1 ≤ busy) × (interval ≤ most_intervals) × (first ≤ interval) × (last ≤ interval) × (taken ≤ last) }
    ensures { OneRoom some interval busy first last taken result × (result ≤ 3 * most_intervals) }
{
    if some {
        taken + (interval + first - last) / busy
    } else {
        interval / busy
    }
}

// How many operations the instances take in all.
fn room(case: Case, seats: Seats) -> usize
    requires { CaseOk case × SeatsOk case seats }
    ensures { Roomy case seats result }
{
    let mut c: usize = 0;
    for v in 0..case.instances {
        c += one_room(
            v < seats.used,
            case.interval,
            case.busy,
            seats.first[v],
            seats.last[v],
            seats.taken[v],
        );
    }
    c
}

// What is known with a pin more at slot s on instance v, which is free there.
fn with_pin(seats: Seats, busy: usize, v: usize, s: usize) -> Seats
    requires { (v < most_instances) × (1 ≤ busy) × (s ≤ most_intervals) × (vec seats.last v ≤ s) × (vec seats.taken v ≤ most_intervals) }
    ensures { result ≡ with_pin seats busy v s }
{
    let mut out = seats;
    out.taken[v] += (s - seats.last[v]) / busy;
    out.last[v] = s;
    out
}

// What is known with a pin at slot s on an instance that had none.
fn with_instance(seats: Seats, s: usize) -> Seats
    requires { seats.used < most_instances }
    ensures { result ≡ with_instance seats s }
{
    let v = seats.used;
    let mut out = seats;
    out.first[v] = s;
    out.last[v] = s;
    out.taken[v] = 0;
    out.used = v + 1;
    out
}

// The calls that are left where the operations with a pin from the key `from` on cannot be given instances such that
// there is room for all of the type; None where they can, or the calls run out.
fn seat(case: Case, from: usize, seats: Seats, fuel: usize) -> Option<usize>
    requires { CaseOk case × SeatsOk case seats }
    ensures { IfSome result (λ _. Unseated case from seats) }
{
    let mut left = fuel.checked_sub(1)?;
    if room(case, seats) < case.total {
        return Some(left);
    }
    let x = next_pin(case, from)?;
    let s = case.pin[x];
    let after = s * MOST_OPERATIONS + x + 1;
    for v in 0..seats.used {
        if free(case.interval, case.busy, seats.first[v], seats.last[v], s) {
            let more = with_pin(seats, case.busy, v, s);
            left = seat(case, after, more, left)?;
        }
    }
    if seats.used < case.instances {
        let more = with_instance(seats, s);
        return seat(case, after, more, left);
    }
    Some(left)
}

// Whether the rule is for a type with these instances and busy slots: it is limited, and stays busy for more than one
// slot and no more than there are.
fn worth(instances: usize, busy: usize, interval: usize) -> bool
    ensures { result ≡ true → (0 < instances) × (1 < busy) × (busy ≤ interval) }
{
    0 < instances && 1 < busy && busy <= interval
}

// Whether there is no plan in the domain, as far as the seats of this type tell.
fn type_hopeless(p: Task, d: &Domain, kind: usize) -> bool
    requires { TaskOk p × (kind < most_types) × (0 < instances_of p kind) × (1 < busy_of p kind) × (busy_of p kind ≤ p.interval) }
    ensures { Hopeless p d.now result }
{
    let resource = p.resource;
    let total = task::count_of(&resource, p.ops, kind);
    let pin = pins(d, resource, p.ops, p.interval, kind);
    let instances = p.instances[kind];
    let busy = p.busy[kind];
    let case = Case {
        ops: p.ops,
        interval: p.interval,
        instances,
        busy,
        total,
        pin,
    };
    let none = Seats {
        used: 0,
        first: [0; MOST_INSTANCES],
        last: [0; MOST_INSTANCES],
        taken: [0; MOST_INSTANCES],
    };
    seat(case, 0, none, MOST_CALLS).is_some()
}

// Whether there is no plan in the domain, as far as rule 3 tells. Left free: when it answers false, which is always
// right.
pub fn hopeless(p: Task, d: &Domain) -> bool
    requires { TaskOk p }
    ensures { Hopeless p d.now result }
{
    for kind in 0..MOST_TYPES {
        if worth(p.instances[kind], p.busy[kind], p.interval) && type_hopeless(p, d, kind) {
            return true;
        }
    }
    false
}
