// Reads a line with any count of numbers up to a given one. A crate of its own for the check's time.
#![tactic(auto)]

ghost use Rattle.std.specs.Prelude.{◌≡◌, [], ◌≤◌, length, drop, IfSome};
ghost use Rattle.scan_list.specs.List.{most_items, item_of, seen_item, WithinItem, items_from, due_list, seen_items, ItemsFit};

use scan::after_key;
use scan_number::{Class, classify, read_number};

// The most numbers that a list may have: an operation and the 24 edges of a chain.
pub const MOST_ITEMS: usize = 25;

// A number and the place after the byte that ends it: a comma, so that another number is due, or a line feed.
#[derive(Clone, Copy)]
enum Item {
    More(usize, usize),
    Last(usize, usize),
}

#[tactic(auto, using(crate::proofs::Lists::item_none, crate::proofs::Lists::item_short, crate::proofs::Lists::item_comma, crate::proofs::Lists::item_feed, crate::proofs::Lists::item_other))]
fn read_item(s: &[u8], at: usize) -> Option<Item>
    ensures result_value { seen_item s.now result ≡ item_of (drop at s.now) }
    ensures within_item { IfSome result (λ r. WithinItem s.now r) }
{
    let (n, next) = read_number(s, at)?;
    match classify(*s.get(next)?) {
        Class::Comma => Some(Item::More(n as usize, next + 1)),
        Class::LineFeed => Some(Item::Last(n as usize, next + 1)),
        _ => None,
    }
}

// A line's numbers and the place after its line feed. Values past the count are 0.
// Kept: an array with its count, since the library has no heap.
#[derive(Clone, Copy)]
pub struct Items {
    pub count: usize,
    pub values: [usize; MOST_ITEMS],
    pub next: usize,
}

// The numbers of a line, at most `most` of them, from `start`.
#[tactic(auto, using(crate::proofs::Lists::items_stop, crate::proofs::Lists::items_last, crate::proofs::Lists::items_more, crate::proofs::Lists::items_full, crate::proofs::Lists::held_none, crate::proofs::Lists::held_more, crate::proofs::Lists::fits_items))]
fn read_items(s: &[u8], start: usize, most: usize) -> Option<Items>
    requires { (start ≤ length s.now) × (most ≤ most_items) }
    ensures result_value { seen_items s.now result ≡ items_from most [] (drop start s.now) }
    ensures items_fit { IfSome result (λ r. ItemsFit s.now r) }
{
    let mut values = [0usize; MOST_ITEMS];
    let mut p = start;
    for i in 0..most {
        match read_item(s, p)? {
            Item::More(n, next) => {
                values[i] = n;
                p = next;
            }
            Item::Last(n, next) => {
                values[i] = n;
                return Some(Items {
                    count: i + 1,
                    values,
                    next,
                });
            }
        }
    }
    None
}

// The line at `at` with this key (its equals sign included) and one to `most` numbers. A list has at most 25 numbers:
// with a greater `most`, as with any malformed line, there is none.
#[tactic(auto, using(crate::proofs::Lists::list_after, crate::proofs::Lists::list_missing, crate::proofs::Lists::list_long, crate::proofs::Lists::list_past))]
pub fn read_list(s: &[u8], at: usize, key: &[u8], most: usize) -> Option<Items>
    ensures result_value { seen_items s.now result ≡ due_list key.now most (drop at s.now) }
    ensures items_fit { IfSome result (λ r. ItemsFit s.now r) }
{
    if MOST_ITEMS < most || s.len() < at {
        return None;
    }
    let start = after_key(s, at, key)?;
    read_items(s, start, most)
}
