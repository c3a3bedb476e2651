// Who uses the instances of a type in a slot: each slot that an operation holds shows it.
ghost use Rattle.std.specs.Prelude.{◌≡◌, ◌<◌, ◌≤◌};
ghost use Rattle.sizes.specs.Sizes.{most_operations, most_types};
ghost use Rattle.page_text.specs.Page.{reserves, user_of};
ghost use Rattle.page_text.specs.Users.{UsersOf, with_user};

use placing_table::{Placement, Table};
use sheet::Sheet;
use sizes::MOST_INSTANCES;

// For each instance of a type its user in a slot: the operation's number plus 1, 0 for none.
#[derive(Clone, Copy)]
pub struct Users {
    pub of: [usize; MOST_INSTANCES],
}

// Whether an operation of the type `resource`, placed as p, holds an instance of type r in the slot. An instance of r
// stays busy for `busy` slots.
fn reserves(
    interval: usize,
    busy: usize,
    resource: usize,
    p: Placement,
    r: usize,
    slot: usize,
) -> bool
    requires { slot < interval }
    ensures { result ≡ reserves interval busy resource p r slot }
{
    if !p.placed {
        return false;
    }
    if resource != r {
        return false;
    }
    held_slots::holds(interval, busy, p.start, slot)
}

// The users, and operation i on its instance besides, where it is there.
fn with_user(users: Users, is_there: bool, instance: usize, i: usize) -> Users
    requires { i < most_operations }
    ensures { result.of ≡ with_user users.of is_there instance i }
{
    if !is_there {
        return users;
    }
    if MOST_INSTANCES <= instance {
        return users;
    }
    let mut of = users.of;
    of[instance] = i + 1;
    Users { of }
}

// The users of the instances of type r in the slot.
pub fn users_in(sheet: Sheet, interval: usize, table: Table, r: usize, slot: usize) -> Users
    requires { (sheet.op_count ≤ most_operations) × (r < most_types) × (slot < interval) }
    ensures { UsersOf (user_of sheet interval table r slot) result.of }
{
    let kind = sheet.types[r];
    let busy = kind.busy;
    let count = sheet.op_count;
    let ops = sheet.ops;
    let entries = table.entries;
    let mut found = Users {
        of: [0; MOST_INSTANCES],
    };
    for i in 0..count {
        let op = ops[i];
        let p = entries[i];
        let is_there = reserves(interval, busy, op.resource, p, r, slot);
        found = with_user(found, is_there, p.instance, i);
    }
    found
}
