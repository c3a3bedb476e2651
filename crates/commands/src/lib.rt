// What each command prints for the bytes of a sheet: the lines of a service's answer, or a page, at the front of a lent
// buffer. `words` says what is asked for; the program `ask` prints these bytes.
#![tactic(auto)]

ghost use Rattle.std.specs.Prelude.{◌≤◌};
ghost use Rattle.text.specs.Sizes.{greatest_number};
ghost use Rattle.sheet.specs.Sheet.{InRange, Arrays};
ghost use Rattle.command_lines.specs.Listing.{refusal_lines};
ghost use Rattle.command_lines.specs.Prints.{Put, Serves, Answered, AnsweredPage};
ghost use Rattle.command_lines.specs.Shows.{Shows};

use lines::Lines;
use sheet::Sheet;
use text::{Key, Written};
use words::Command;

mod orders; // orders.rt: the lines of a slot order
mod pages; // pages.rt: pages of plans

// Room for whatever a command prints; a page, the longest, leaves a thousand bytes of it.
pub const ROOM: usize = 24576;

// The lines that leastplan prints for the interval; the answer alone where the interval is refused.
fn plan(sheet: Sheet, interval: usize, out: &mut [u8]) -> Written
    requires { InRange sheet }
    ensures { Put (Serves sheet (Command.Plan interval)) out.old result out.new }
{
    if let Err(refusal) = questions::asked(sheet, interval) {
        return lines::put(out, command_lines::alone(refusal.number()));
    }
    report::interval_text(sheet, interval, out)
}

// The command on a sheet that was read.
fn serve(command: Command, sheet: Sheet, out: &mut [u8]) -> Written
    requires { InRange sheet × Arrays sheet }
    ensures { Put (Serves sheet command) out.old result out.new }
{
    match command {
        Command::Bounds => lines::put(out, command_lines::bounds(sheet)),
        Command::Starts(interval) => lines::put(out, command_lines::starts(sheet, interval)),
        Command::Separations(interval) => lines::put(
            out,
            command_lines::separations(sheet, interval),
        ),
        Command::Plan(interval) => plan(sheet, interval, out),
        Command::Page(interval) => pages::first(sheet, interval, out),
        Command::Order(interval, pair) => lines::put(out, orders::order(sheet, interval, pair)),
        Command::Check => lines::put(out, command_lines::alone(0)),
        Command::Write => writer::write(sheet, out),
    }
}

// The lines of a refused sheet: its answer alone; the command `check` adds the line at fault.
fn refusal_lines(command: Command, refusal: usize, line: usize) -> Lines
    requires { (refusal ≤ greatest_number) × (line ≤ greatest_number) }
    ensures { Shows result (refusal_lines command refusal line) }
{
    let alone = command_lines::alone(refusal);
    match command {
        Command::Check => lines::with(alone, text_line::count_line(Key::Line, line)),
        _ => alone,
    }
}

// All that the command prints for the bytes of a sheet, at the front of `out`, and its count of bytes; 9 where it does
// not fit, and then `out` stays as it was. `ROOM` bytes are always enough.
pub fn answer(command: Command, bytes: &[u8], out: &mut [u8]) -> Written
    ensures { Answered command bytes.now out.old result out.new }
{
    let read = reader::read(bytes);
    let refusal = read.answer;
    if refusal != 0 {
        return lines::put(
            out,
            refusal_lines(command, refusal, reader::line_at_fault(bytes)),
        );
    }
    let sheet = read.sheet;
    serve(command, sheet, out)
}

// All that is printed for the bytes of a sheet and a plan that is given besides, by its starts and instances: the
// plan's page, or the refusal's number alone; into `out` as by `answer`.
pub fn page_of_plan(
    bytes: &[u8],
    interval: usize,
    starts: &[usize],
    instances: &[usize],
    out: &mut [u8],
) -> Written
    ensures { AnsweredPage bytes.now interval starts.now instances.now out.old result out.new }
{
    let read = reader::read(bytes);
    let refusal = read.answer;
    if refusal != 0 {
        return lines::put(out, command_lines::alone(refusal));
    }
    let sheet = read.sheet;
    pages::given(sheet, interval, starts, instances, out)
}
