// All that the command `judge` prints for the bytes of a sheet and of another supplier's answer, at the front of a lent
// buffer, and what can be told beside it. The program `ask` prints these bytes.
#![tactic(auto)]

ghost use Rattle.judge_command.specs.Prints.{Examined, Answered};

use text::{Key, Written};

// Room for what is printed: the line `answer=` with a number of at most three digits.
pub const ROOM: usize = 11;

// What is answered, and the line of the other supplier's answer that is at fault: 0 where it passed or the sheet is
// refused.
#[derive(Clone, Copy)]
pub struct Finding {
    pub answer: usize,
    pub line: usize,
}

// What is answered to `given`, another supplier's answer, for the bytes of a sheet, and where it is at fault.
pub fn examine(bytes: &[u8], given: &[u8]) -> Finding
    ensures { Examined bytes.now given.now result }
{
    let read = reader::read(bytes);
    let refusal = read.answer;
    if refusal != 0 {
        return Finding {
            answer: refusal,
            line: 0,
        };
    }
    let sheet = read.sheet;
    let answer = judge::judge(sheet, given);
    let line = judge::line_at_fault(sheet, given);
    Finding { answer, line }
}

// The line `answer=` with what is answered, at the front of `out`, and its count of bytes; 9 where it does not fit, and
// then `out` stays as it was. `ROOM` bytes are always enough.
pub fn answer(bytes: &[u8], given: &[u8], out: &mut [u8]) -> Written
    ensures { Answered bytes.now given.now out.old result out.new }
{
    let found = examine(bytes, given);
    let line = text_line::count_line(Key::Answer, found.answer);
    lines::put(out, lines::with(lines::none(), line))
}
