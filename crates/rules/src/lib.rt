// Tests of a plan's rules for one and for two operations: instances, rivals, slots. Any operation number may be asked
// about. Each rule is decided once: an operation's own instance in `instance_allowed`, two rivals on one instance in
// `overlap`; an operation's own start, and what holding an instance asks of it, in the crate `start_rules`.
#![tactic(auto)]

ghost use Rattle.std.specs.Prelude.{◌≡◌};
ghost use Rattle.laws.specs.Says.{Says};
ghost use Rattle.sheet.specs.Sheet.{type_of};
ghost use Rattle.plan.specs.Rules.{InstanceAllowed, Rivals, Overlap, slot};

use operations::{instances_of, resource_of, type_of};
use sheet::Sheet;

// Whether an operation may have an instance: one of its type's, or 0 where the type is unlimited.
pub fn instance_allowed(sheet: Sheet, op: usize, instance: usize) -> bool
    ensures { Says (InstanceAllowed sheet op instance) result }
{
    let limit = instances_of(sheet, op);
    if limit == 0 {
        instance == 0
    } else {
        instance < limit
    }
}

// Whether two operations are rivals: different, and of one limited type.
pub fn rivals(sheet: Sheet, i: usize, j: usize) -> bool
    ensures { Says (Rivals sheet i j) result }
{
    i != j && resource_of(sheet, i) == resource_of(sheet, j) && 0 < instances_of(sheet, i)
}

// The slot of a start: its remainder by the interval. There are no slots at interval 0, where the remainder is the
// start itself.
pub fn slot_of(interval: usize, start: usize) -> usize
    ensures { result ≡ slot interval start }
{
    if interval == 0 {
        return start;
    }
    start % interval
}

// The slots that an operation holds its instance; past the array of types they are 0.
fn busy_of(sheet: Sheet, op: usize) -> usize
    ensures { result ≡ (type_of sheet op).busy }
{
    type_of(sheet, op).busy
}

// Whether operation i at the start t and operation j at the start u hold a slot in common, so that they may not share
// an instance.
pub fn overlap(sheet: Sheet, interval: usize, i: usize, t: usize, j: usize, u: usize) -> bool
    ensures { Says (Overlap sheet interval i t j u) result }
{
    held_slots::meet(interval, busy_of(sheet, i), busy_of(sheet, j), t, u)
}
