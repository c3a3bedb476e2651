// Slots that operations hold (the occupancy of an instance): how far one slot is after another, whether a start holds a
// slot, whether two starts hold one in common. specs/ has the laws, among them how many operations an instance takes.
// `meet` answers for any numbers. `offset` and `holds` ask for slots below the interval: their callers, the search and
// the page, go through the slots of an interval.
#![tactic(auto)]

ghost use Rattle.std.specs.Prelude.{◌≡◌, ◌<◌};
ghost use Rattle.laws.specs.Says.{Says};
ghost use Rattle.held_slots.specs.Held.{Meet, holds_slot, off};

// How far slot b is after slot s, of as many slots as the interval.
pub fn offset(interval: usize, s: usize, b: usize) -> usize
    requires { (b < interval) × (s < interval) }
    ensures { result ≡ off interval s b }
{
    if b < s { interval - (s - b) } else { b - s }
}

// Whether starts hold a slot in common where nothing comes round, as at interval 0.
fn meet_on_a_line(first: usize, second: usize, t: usize, u: usize) -> bool
    requires { (0 < first) × (0 < second) }
    ensures { Says (Meet 0 first second t u) result }
{
    if t <= u {
        u - t < first
    } else {
        t - u < second
    }
}

// The same round the interval's slots.
fn meet_on_a_circle(interval: usize, first: usize, second: usize, t: usize, u: usize) -> bool
    requires { (0 < interval) × (0 < first) × (0 < second) }
    ensures { Says (Meet interval first second t u) result }
{
    let s = t % interval;
    let b = u % interval;
    offset(interval, s, b) < first || offset(interval, b, s) < second
}

// Whether the start t, which holds `first` slots, and the start u, which holds `second` slots, hold one in common.
pub fn meet(interval: usize, first: usize, second: usize, t: usize, u: usize) -> bool
    ensures { Says (Meet interval first second t u) result }
{
    if first == 0 || second == 0 {
        false
    } else if interval == 0 {
        meet_on_a_line(first, second, t, u)
    } else {
        meet_on_a_circle(interval, first, second, t, u)
    }
}

// Whether the start t, which holds `busy` slots, holds this one.
pub fn holds(interval: usize, busy: usize, t: usize, slot: usize) -> bool
    requires { slot < interval }
    ensures { result ≡ holds_slot interval busy t slot }
{
    offset(interval, t % interval, slot) < busy
}
