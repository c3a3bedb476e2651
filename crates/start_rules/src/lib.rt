// What an operation asks of its own start, whatever the others do: to start and to finish inside the horizon, to start
// inside its window, and what comes with holding an instance, which a placing table asks too. Any operation number may
// be asked about.
#![tactic(auto)]

ghost use Rattle.laws.specs.Says.{Says};
ghost use Rattle.plan.specs.Rules.{MayHold, HoldsAllowed, InHorizon, InWindow, MayStart};
ghost use Rattle.start_rules.specs.Starts.{RowFor};

use operations::{operation_at, type_at, type_of};
use sheet::{Operation, ResourceType, Sheet};
use sizes::MOST_STARTS;

// Whether an operation of this latency that starts at t starts and finishes inside the horizon. It goes by what is left
// of the horizon, since start and latency may be any numbers and their sum might overflow.
fn in_horizon(horizon: usize, latency: usize, t: usize) -> bool
    ensures { Says (InHorizon horizon latency t) result }
{
    t < horizon && latency <= horizon - t
}

// Whether a start is inside an operation's window.
fn in_window(operation: Operation, t: usize) -> bool
    ensures { Says (InWindow operation.lo operation.hi t) result }
{
    operation.lo <= t && t <= operation.hi
}

// Whether an instance of this type may be held from the start t on: K is at most the interval if the type is limited,
// as an operation would else meet itself.
fn may_hold(kind: ResourceType, interval: usize, t: usize) -> bool
    ensures { Says (MayHold kind interval t) result }
{
    kind.instances == 0 || kind.busy <= interval
}

// Whether an operation may hold its instance from the start t on.
pub fn holds_allowed(sheet: Sheet, interval: usize, op: usize, t: usize) -> bool
    ensures { Says (HoldsAllowed sheet interval op t) result }
{
    may_hold(type_of(sheet, op), interval, t)
}

// Whether an operation of this type may start at t: by the horizon, by its window and by what holding asks.
fn may_start(
    horizon: usize,
    kind: ResourceType,
    operation: Operation,
    interval: usize,
    t: usize,
) -> bool
    ensures { Says (MayStart horizon kind operation interval t) result }
{
    in_window(operation, t) && in_horizon(horizon, kind.latency, t) && may_hold(kind, interval, t)
}

// The starts that an operation may have, a flag for each.
pub fn allowed_starts(sheet: Sheet, interval: usize, op: usize) -> [bool; MOST_STARTS]
    ensures { RowFor sheet interval op result }
{
    let operation = operation_at(&sheet, op);
    let kind = type_at(&sheet, operation.resource);
    let mut row = [false; MOST_STARTS];
    for (t, allowed) in row.iter_mut().enumerate() {
        *allowed = may_start(sheet.horizon, kind, operation, interval, t);
    }
    row
}
