// Writes the page of a placing table straight into the lent buffer; page_text/specs/Page.antt says which bytes it has.
// Its callers put the questions first: `page` and `table_command` call `put_page` for a sheet and an interval that are
// accepted, with a buffer that takes the page. `page` asks `page_length`, and `table_command` has room for any page.
#![tactic(auto)]

ghost use Rattle.std.specs.Prelude.{◌≡◌, ◌+◌, ◌*◌, ◌<◌, ◌≤◌, length};
ghost use Rattle.sizes.specs.Sizes.{most_types, most_instances, most_intervals};
ghost use Rattle.laws.specs.Entry.{vec};
ghost use Rattle.text.specs.Sizes.{three_digits};
ghost use Rattle.text.specs.Text.{over};
ghost use Rattle.sheet.specs.Sheet.{type_at};
ghost use Rattle.sheet.specs.Questions.{Accepted};
ghost use Rattle.page_text.specs.Columns.{up_to};
ghost use Rattle.page_text.specs.Page.{heading_line, column_text, slot_line, user_of, type_text, page_text};
ghost use Rattle.text.specs.Pasting.{Pasted};
ghost use Rattle.page_text.specs.Users.{FewUsers};
ghost use Rattle.page_text.specs.Widths.{line_length, type_length, page_length};

use page_text::Users;
use placing_table::Table;
use sheet::Sheet;
use sizes::MOST_INSTANCES;

// The bytes of a line: 44 characters and a line feed.
pub const LINE_LENGTH: usize = 45;

// How many bytes the lines of a type with `limit` instances have.
fn type_length(interval: usize, limit: usize) -> usize
    requires { interval ≤ most_intervals }
    ensures { result ≡ type_length interval limit }
{
    if limit == 0 {
        return 0;
    }
    (interval + 1) * LINE_LENGTH
}

// How many bytes the page has.
pub fn page_length(sheet: Sheet, interval: usize) -> usize
    requires { Accepted sheet interval }
    ensures { result ≡ page_length sheet interval }
{
    let count = sheet.type_count;
    let mut total = 0;
    for r in 0..count {
        let kind = sheet.types[r];
        total += type_length(interval, kind.instances);
    }
    total
}

// The column of an instance of a type with `limit` of them, and the place after it.
fn put_column(out: &mut [u8], at: usize, limit: usize, column: usize, user: usize) -> usize
    requires { (user ≤ three_digits) × (at + 5 ≤ length out.old) }
    ensures { Pasted at (column_text limit column user) out.old out.new result }
{
    if limit <= column {
        return page_text::put_at(out, at, b"     ");
    }
    if user == 0 {
        return page_text::put_at(out, at, b"    -");
    }
    page_text::put_in_five(out, at, user - 1)
}

// The eight columns of a slot.
fn put_columns(out: &mut [u8], at: usize, limit: usize, users: Users) -> usize
    requires { FewUsers (vec users.of) × (at + most_instances * 5 ≤ length out.old) }
    ensures { Pasted at (up_to most_instances (λ a. column_text limit a (vec users.of a))) out.old out.new result }
{
    let mut place = at;
    for column in 0..MOST_INSTANCES {
        place = put_column(out, place, limit, column, users.of[column]);
    }
    place
}

// The line of a slot.
fn put_slot_line(out: &mut [u8], at: usize, limit: usize, slot: usize, users: Users) -> usize
    requires { (slot ≤ three_digits) × FewUsers (vec users.of) × (at + line_length ≤ length out.old) }
    ensures { Pasted at (slot_line limit (vec users.of) slot) out.old out.new result }
{
    let first = page_text::put_in_four(out, at, slot);
    let end = put_columns(out, first, limit, users);
    page_text::put_at(out, end, b"\n")
}

// The heading of a type.
fn put_heading(out: &mut [u8], at: usize, r: usize) -> usize
    requires { (r ≤ three_digits) × (at + line_length ≤ length out.old) }
    ensures { Pasted at (heading_line r) out.old out.new result }
{
    let number = page_text::put_at(out, at, b"type");
    let end = page_text::put_in_five(out, number, r);
    page_text::put_at(out, end, b"                                   \n")
}

// The lines of the slots of a type with `limit` instances.
fn put_slots(
    out: &mut [u8],
    at: usize,
    sheet: Sheet,
    interval: usize,
    table: Table,
    r: usize,
    limit: usize,
) -> usize
    requires { Accepted sheet interval × (r < most_types) × (at + interval * line_length ≤ length out.old) }
    ensures { Pasted at (up_to interval (λ slot. slot_line limit (user_of sheet interval table r slot) slot)) out.old out.new result }
{
    let mut place = at;
    for slot in 0..interval {
        let users = page_text::users_in(sheet, interval, table, r, slot);
        place = put_slot_line(out, place, limit, slot, users);
    }
    place
}

// The lines of a type; none where it is unlimited.
fn put_type(
    out: &mut [u8],
    at: usize,
    sheet: Sheet,
    interval: usize,
    table: Table,
    r: usize,
) -> usize
    requires { Accepted sheet interval × (r < most_types) × (at + type_length interval (type_at sheet r).instances ≤ length out.old) }
    ensures { Pasted at (type_text sheet interval table r) out.old out.new result }
{
    let kind = sheet.types[r];
    let limit = kind.instances;
    if limit == 0 {
        return at;
    }
    let first = put_heading(out, at, r);
    put_slots(out, first, sheet, interval, table, r, limit)
}

// The page at the front of `out`, which takes it, and how many bytes it has.
pub fn put_page(out: &mut [u8], sheet: Sheet, interval: usize, table: Table) -> usize
    requires { Accepted sheet interval × (page_length sheet interval ≤ length out.old) }
    ensures value { result ≡ length (page_text sheet interval table) }
    ensures out_after { out.new ≡ over (page_text sheet interval table) out.old }
{
    let count = sheet.type_count;
    let mut place = 0;
    for r in 0..count {
        place = put_type(out, place, sheet, interval, table, r);
    }
    place
}
