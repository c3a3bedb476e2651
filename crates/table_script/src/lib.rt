// Reads a script on a placing table: lines `offer=op,start`, `book=op,start,instance` and `place=op,start`, in any
// order, and nothing more. It knows no sheet and no table: what a step does is told elsewhere.
#![tactic(auto)]

ghost use Rattle.std.specs.Prelude.{◌≡◌, ◌≤◌, drop, length, IfSome};
ghost use Rattle.table_script.specs.Script.{step_of, seen, script_of, fault_of};

use scan::read_plain;

// The lines of a script, at most.
pub const MOST_STEPS: usize = 1024;

// One step of a script: an offer asked for (operation, start), an offer booked (operation, start, instance), an
// operation placed (operation, start).
#[derive(Clone, Copy)]
pub enum Step {
    Offer(usize, usize),
    Book(usize, usize, usize),
    Place(usize, usize),
}

// The step whose line stands at `at`, and the place after that line.
#[tactic(auto, using(crate::specs::Steps::offer_step, crate::specs::Steps::book_step, crate::specs::Steps::place_step, crate::specs::Steps::no_step))]
pub fn read_step(bytes: &[u8], at: usize) -> Option<(Step, usize)>
    ensures result_value { seen bytes.now result ≡ step_of (drop at bytes.now) }
    ensures within { IfSome result (λ r. r.1 ≤ length bytes.now) }
{
    if let Some(offer) = read_plain(bytes, at, b"offer=", 2) {
        return Some((Step::Offer(offer.first, offer.second), offer.next));
    }
    if let Some(book) = read_plain(bytes, at, b"book=", 3) {
        let step = Step::Book(book.first, book.second, book.third);
        return Some((step, book.next));
    }
    let place = read_plain(bytes, at, b"place=", 2)?;
    Some((Step::Place(place.first, place.second), place.next))
}

// The number of the first line that is no step, or is past the most, counted from 1; 0 where every line is a step.
#[tactic(auto, using(crate::specs::Walk::first, crate::specs::Walk::fault_none, crate::specs::Walk::fault_over, crate::specs::Walk::fault_at_lem, crate::specs::Walk::again))]
pub fn line_at_fault(bytes: &[u8]) -> usize
    ensures { result ≡ fault_of (script_of bytes.now) }
{
    let mut p: usize = 0;
    let mut i: usize = 0;
    while p < bytes.len() {
        if MOST_STEPS <= i {
            return i + 1;
        }
        match read_step(bytes, p) {
            Some((_, next)) => p = next,
            None => return i + 1,
        }
        i += 1;
    }
    0
}
