// Pages of plans, or the lines of why there is none.
ghost use Rattle.sheet.specs.Sheet.{InRange};
ghost use Rattle.command_lines.specs.Prints.{Put, Serves, ServesPage};

use sheet::Sheet;
use text::Written;
use words::Command;

// The page of a plan that is given, or the refusal's number alone.
pub fn given(
    sheet: Sheet,
    interval: usize,
    starts: &[usize],
    instances: &[usize],
    out: &mut [u8],
) -> Written
    requires { InRange sheet }
    ensures { Put (ServesPage sheet interval starts.now instances.now) out.old result out.new }
{
    let mut text = [0u8; page::ROOM];
    let written = page::page(sheet, interval, starts, instances, &mut text);
    if written.answer != 0 {
        return lines::put(out, command_lines::alone(written.answer));
    }
    let count = written.count;
    text_line::put_text(out, &text[..count])
}

// The page of the first plan, or why there is none.
pub fn first(sheet: Sheet, interval: usize, out: &mut [u8]) -> Written
    requires { InRange sheet }
    ensures { Put (Serves sheet (Command.Page interval)) out.old result out.new }
{
    let found = schedule::plan_at(sheet, interval);
    if found.answer != 0 {
        let edges = found.loop_edges;
        return lines::put(
            out,
            command_lines::denied(found.answer, found.loop_length, edges),
        );
    }
    let count = sheet.op_count;
    let starts = found.starts;
    let instances = found.instances;
    given(sheet, interval, &starts[..count], &instances[..count], out)
}
