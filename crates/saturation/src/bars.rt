// The stretches from one slot on: which takes too few operations of a type, and which is full, so that the others stay
// outside.
ghost use Rattle.std.specs.Prelude.{◌≡◌, ℕ, ◌*◌, ◌<◌, ◌≤◌, MatchOption};
ghost use Rattle.sizes.specs.Sizes.{most_operations, most_intervals};
ghost use Rattle.laws.specs.Entry.{vec};
ghost use Rattle.laws.specs.Count.{tally};
ghost use Rattle.saturation_slots.specs.Saturation.{inside_b, NoRoomIn, BarsIn, Widened, Raised};

use saturation_slots::{Case, Slots, Touches, slot_at};
use sizes::{MOST_INTERVALS, MOST_OPERATIONS};

// What the stretches from a slot say: how far from it each operation is at least; and how many slots the widest of them
// has that tells anything, or 0.
#[derive(Clone, Copy)]
pub struct Barrier {
    pub wide: usize,
    pub bar: [usize; MOST_OPERATIONS],
}

// Whether operation i is of this type and reaches at most w.
fn is_inside(case: Case, reach: &[usize; MOST_OPERATIONS], w: usize, i: usize) -> bool
    requires { i < most_operations }
    ensures { result ≡ inside_b (vec case.entry.resource.now) (vec reach.now) case.entry.kind w i }
{
    case.resource[i] == case.kind && reach[i] <= w
}

// How many operations of this type reach at most w.
#[tactic(auto, using(task::specs::PlanLaws::tally_next, task::specs::PlanLaws::tally_start))]
fn inside(case: Case, reach: &[usize; MOST_OPERATIONS], w: usize) -> usize
    ensures { result ≡ tally case.entry.ops (inside_b (vec case.entry.resource.now) (vec reach.now) case.entry.kind w) }
{
    let mut c = 0;
    for i in 0..case.ops {
        c += usize::from(is_inside(case, reach, w, i));
    }
    c
}

// An operation reaches 0 to MOST_INTERVALS slots.
const REACHES: usize = MOST_INTERVALS + 1;

// How many operations of this type reach just so far. No promise: it only tells where `inside` is worth a count.
fn reach_counts(case: Case, reach: &[usize; MOST_OPERATIONS]) -> [u32; REACHES] {
    let mut counts = [0u32; REACHES];
    for i in 0..case.ops {
        let k = reach[i].min(MOST_INTERVALS);
        counts[k] = counts[k].wrapping_add(u32::from(case.resource[i] == case.kind));
    }
    counts
}

// The bars after a full stretch of w slots: those of the type that reach farther stay outside.
fn raise(bar: &mut [usize; MOST_OPERATIONS], case: Case, reach: &[usize; MOST_OPERATIONS], w: usize)
    ensures { Raised case.entry.ops bar.old (vec case.entry.resource.now) reach.now case.entry.kind w bar.new }
{
    for i in 0..case.ops {
        if case.resource[i] == case.kind && w < reach[i] {
            bar[i] = w;
        }
    }
}

// The starts that a stretch takes, and how many slots from its beginning that count covers.
#[derive(Clone, Copy)]
struct Cover {
    cap: usize,
    covered: usize,
}

// The stretch with slot w more: where the type uses it and it is not covered yet, the slots from there on that the type
// stays busy take as many starts more as it has instances.
fn widened(cover: Cover, case: Case, used: bool, w: usize) -> Cover
    requires { (w < most_intervals) × (cover.cap ≤ w * most_operations) }
    ensures { Widened cover.cap cover.covered case.entry.instances case.entry.busy used w result.cap result.covered }
{
    if used && cover.covered <= w {
        return Cover {
            cap: cover.cap + case.instances,
            covered: w + case.busy,
        };
    }
    cover
}

// Whether a stretch that takes `cap` starts is worth a count: as many seem to be inside, and it seems that others of
// the type touch it.
// Kept: a cast, as no From gives a usize of a u32.
fn worth(cap: usize, seem: u32, most: usize, touched: u32) -> bool {
    let inside = seem as usize;
    cap < inside || (cap == inside && inside < most && seem < touched)
}

// The stretches from slot s on, or none where more must be inside one than it takes.
pub fn bars(
    case: Case,
    used: &Slots,
    touch: &Touches,
    reach: &[usize; MOST_OPERATIONS],
    s: usize,
) -> Option<Barrier>
    requires { s < case.interval }
    ensures { MatchOption result (NoRoomIn case.entry (vec case.entry.resource.now) s used.now reach.now) (λ b. BarsIn case.entry (vec case.entry.resource.now) s used.now reach.now b.bar) }
{
    let counts = reach_counts(case, reach);
    let mut found = Barrier {
        wide: 0,
        bar: [0; MOST_OPERATIONS],
    };
    let mut seem = counts[0];
    let mut touched: u32 = 0;
    let mut cover = Cover { cap: 0, covered: 0 };
    for w in 0..case.interval {
        let b = slot_at(case.interval, s, w);
        cover = widened(cover, case, used[b], w);
        touched = touched.wrapping_add(u32::from(touch[b]));
        seem = seem.wrapping_add(counts[w + 1]);
        if case.most < cover.cap {
            return Some(found);
        }
        if worth(cover.cap, seem, case.most, touched) {
            let count = inside(case, reach, w + 1);
            if cover.cap < count {
                return None;
            }
            if count == cover.cap {
                raise(&mut found.bar, case, reach, w + 1);
            }
            found.wide = w + 1;
        }
    }
    Some(found)
}
