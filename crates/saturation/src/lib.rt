// Rule 2 of narrowing, saturation: as many slots in turn as a type stays busy take at most as many of its starts as it
// has instances. So a stretch of slots takes only so many of them, and where it is full the other operations stay out.
// An inner layer, a crate of its own for the check's time: `saturation` asks for a task whose numbers are within its
// arrays (`TaskOk`).
// Caller: `narrow`, with a task of which its own caller proves `TaskOk`.
#![tactic(auto)]

ghost use Rattle.std.specs.Prelude.{◌<◌, ◌≤◌};
ghost use Rattle.sizes.specs.Sizes.{most_operations, most_types, most_intervals};
ghost use Rattle.laws.specs.Entry.{vec};
ghost use Rattle.domain.specs.Domain.{Keeps};
ghost use Rattle.task.specs.Plan.{TaskOk, PlanOf, instances_of, type_of};
ghost use Rattle.saturation_slots.specs.Saturation.{Slotted, SlotCut, Crowded};

mod bars;

use bars::bars;
use domain::Domain;
use saturation_slots::{
    Case, SlotRows, Slots, Touches, forget, reach_zero, slot_rows, stepped, touches, used_slots,
};
use saturation_trims::drained;
use sizes::{MOST_OPERATIONS, MOST_STARTS, MOST_TYPES};
use task::Task;

// The stretches from slot s on: whether more must be inside one than it takes; else without the starts that they rule
// out.
#[tactic(auto, using(saturation_trims::specs::TrimLaws::slot_fail, saturation_trims::specs::TrimLaws::slot_cut, saturation_trims::specs::TrimLaws::drained_self))]
fn slot_saturation(
    case: Case,
    d: &mut Domain,
    z: &SlotRows,
    touch: &mut Touches,
    used: &Slots,
    reach: &[usize; MOST_OPERATIONS],
    s: usize,
) -> bool
    requires { s < case.interval }
    ensures { SlotCut case.entry (vec case.entry.resource.now) s used.now reach.now d.old d.new result }
{
    let Some(b) = bars(case, used, touch, reach, s) else {
        return true;
    };
    if 0 < b.wide && drained(case, d, z, &b.bar, s) {
        forget(touch, b.wide, s, case.interval);
    }
    false
}

// Rule 2 for this type, which `most` operations have, whose slots are z.
fn type_saturation(p: &Task, d: &mut Domain, z: &SlotRows, kind: usize, most: usize)
    requires { TaskOk p.now × (kind < most_types) × (0 < instances_of p.now kind) × Slotted p.now.ops p.now.interval (type_of p.now) kind d.old z.now }
    ensures { Keeps (PlanOf p.now) p.now.ops d.old d.new }
{
    let case = Case {
        resource: &p.resource,
        ops: p.ops,
        interval: p.interval,
        instances: p.instances[kind],
        busy: p.busy[kind],
        most,
        kind,
    };
    let used = used_slots(z, case);
    let mut touch = touches(z, p.ops);
    let mut reach = reach_zero(z, case);
    for s in 0..p.interval {
        if used[s] && slot_saturation(case, d, z, &mut touch, &used, &reach, s) {
            *d = [[false; MOST_STARTS]; MOST_OPERATIONS];
            return;
        }
        reach = stepped(&reach, z, s, case);
    }
}

// Whether a type has more operations (`most`) than its instances take in all: each takes as many as the interval has
// room for, one after the other.
fn crowded(most: usize, interval: usize, instances: usize, busy: usize) -> bool
    requires { (0 < interval) × (interval ≤ most_intervals) × (instances ≤ most_operations) × (1 ≤ busy) }
    ensures { Crowded most interval instances busy result }
{
    if interval < busy {
        return false;
    }
    let room = interval / busy;
    instances * room < most
}

// Rule 2 for this type, if it is limited.
fn limited_saturation(p: &Task, d: &mut Domain, kind: usize)
    requires { TaskOk p.now × (kind < most_types) }
    ensures { Keeps (PlanOf p.now) p.now.ops d.old d.new }
{
    let instances = p.instances[kind];
    if instances == 0 {
        return;
    }
    let most = task::count_of(&p.resource, p.ops, kind);
    if crowded(most, p.interval, instances, p.busy[kind]) {
        *d = [[false; MOST_STARTS]; MOST_OPERATIONS];
        return;
    }
    if instances < most {
        let z = slot_rows(d, &p.resource, p.ops, p.interval, kind);
        type_saturation(p, d, &z, kind, most);
    }
}

// Whether the row of an operation of this type changed.
fn changed_in(p: &Task, changed: &[bool; MOST_OPERATIONS], kind: usize) -> bool
    requires { p.now.ops ≤ most_operations }
{
    (0..p.ops).any(|i| changed[i] && p.resource[i] == kind)
}

// Rule 2 for each type of which a row changed. Left free: how many of the starts that no plan has go, and the rows past
// the operations.
pub fn saturation(p: Task, d: &mut Domain, changed: [bool; MOST_OPERATIONS])
    requires { TaskOk p }
    ensures { Keeps (PlanOf p) p.ops d.old d.new }
{
    for kind in 0..MOST_TYPES {
        if changed_in(&p, &changed, kind) {
            limited_saturation(&p, d, kind);
        }
    }
}
