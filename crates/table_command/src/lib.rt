// All that the command `table` prints for the bytes of a sheet and a script: what each step answers, the table at the
// end and its page, at the front of a lent buffer. The program `ask` prints these bytes.
#![tactic(auto)]

ghost use Rattle.std.specs.Prelude.{◌≡◌, ◌≤◌};
ghost use Rattle.text.specs.Answers.{refusal_text};
ghost use Rattle.text.specs.Line.{written_of};
ghost use Rattle.text.specs.Sizes.{three_digits};
ghost use Rattle.text.specs.Text.{buffer_of};
ghost use Rattle.table_command.specs.Prints.{Answered};

use text::{Key, Written};

mod listing; // listing.rt: lines and the page, one after the other into a buffer
mod steps; // steps.rt: the steps of a script, one after the other on a table

// Room for whatever is printed: 24 bytes for each of 1,024 steps, 18 for each of 24 entries, and the longest page.
pub const ROOM: usize = 49152;

// Room for the line `answer=` with a number of at most three digits.
const ANSWER_ROOM: usize = 11;

// The number of a refusal alone.
fn put_refusal(out: &mut [u8], answer: usize) -> Written
    requires { answer ≤ three_digits }
    ensures value { result ≡ written_of (refusal_text answer) out.old }
    ensures out_after { out.new ≡ buffer_of (refusal_text answer) out.old }
{
    let mut line = [0u8; ANSWER_ROOM];
    let count = text_line::put_line(&mut line, text_line::count_line(Key::Answer, answer));
    text_line::put_text(out, &line[..count])
}

// All that is printed at the interval, at the front of `out`, and its count of bytes; no bytes where a line of the
// script is at fault (`table_script::line_at_fault` tells it), and the refusal's number alone where the sheet or the
// interval is refused. 9 where it does not fit, and then `out` stays as it was. `ROOM` bytes are always enough.
pub fn answer(bytes: &[u8], interval: usize, script: &[u8], out: &mut [u8]) -> Written
    ensures { Answered bytes.now interval script.now out.old result out.new }
{
    if table_script::line_at_fault(script) != 0 {
        return text_line::put_text(out, b"");
    }
    let read = reader::read(bytes);
    let refusal = read.answer;
    if refusal != 0 {
        return put_refusal(out, refusal);
    }
    let sheet = read.sheet;
    if let Err(no_interval) = questions::asked(sheet, interval) {
        return put_refusal(out, no_interval.number());
    }
    let mut text = [0u8; ROOM];
    let count = listing::put_table(&mut text, sheet, interval, script);
    text_line::put_text(out, &text[..count])
}
