// ask: a command on a loop sheet, `ask COMMAND [interval=L] [pair=P]`, with the sheet on standard input, and at
// descriptor 3 for `page_of_plan` the lines of a plan, for `table` a script, for `judge` another supplier's answer.
// The library says what the words ask for, `requests::request`, what a plan's lines say or which of them is at fault,
// `plan_lines::read`, which line of a script is at fault, `table_script::line_at_fault`, and all that is then printed,
// `commands::answer`, `commands::page_of_plan`, `table_command::answer` and `judge_command::answer`. With words that ask
// for no command, with lines that are no plan at the interval, and with a line that is no step of a script, it says so
// on standard error, reads no sheet and prints nothing. What `judge` answers it says on standard error in words, too.
// A read, or a write on standard output, that fails ends the program with its error.
#![tactic(auto)]

ghost use Rattle.std.specs.Io.{ReadsAtMost};

use commands::ROOM;
use judge::LONGEST_ANSWER;
use reader::LONGEST_SHEET;
use std::env::{Env, FillError};
use std::io::ErrorKind;
use std::rt::Files;
use std::{fs, io};
use table_script::MOST_STEPS;
use text::Written;
use words::{Asked, Command, Given, NOTHING};

mod told; // told.rt: what is said on standard error

// One byte more than a sheet may have, so that a longer one is told. A plan's lines have far fewer.
const INPUT: usize = LONGEST_SHEET + 1;

// Bytes of the longest line of a script, `book=9999,9999,9999` and a line feed.
const LONGEST_STEP: usize = 20;

// One byte more than a script may have, so that a longer one is told.
const SCRIPT_INPUT: usize = MOST_STEPS * LONGEST_STEP + 1;

// One byte more than another supplier's answer may have, so that a longer one is told.
const ANSWER_INPUT: usize = LONGEST_ANSWER + 1;

// Where the second file is read, by its descriptor: the lines of a plan, a script, or another supplier's answer.
const SECOND_FILE: &str = "/dev/fd/3";

// Room for the name of a command; a longer word is none.
const LONGEST_NAME: usize = 16;

// The program's own name and COMMAND come before the arguments.
const FIRST_ARGUMENT: usize = 2;

// Bytes of a word and a line feed after it; the longest argument, `interval=9999`, has fewer.
const WORD_ROOM: usize = 32;

// The word at a place too, as a line; of one that is too long the line feed alone, which is no argument. None where
// there is no word at the place.
fn with_word_at(rt: &impl Env, given: Given, at: usize) -> Option<Given> {
    let mut word = [0u8; WORD_ROOM];
    match rt.arg(at, &mut word) {
        Ok(n) => {
            if WORD_ROOM <= n {
                return Some(words::with_word(given, b"\n"));
            }
            word[n] = b'\n';
            Some(words::with_word(given, &word[..n + 1]))
        }
        Err(FillError::TooLong) => Some(words::with_word(given, b"\n")),
        Err(FillError::NotPresent) => None,
    }
}

// The words after the command.
fn arguments(rt: &impl Env) -> Given {
    let mut given = NOTHING;
    for at in FIRST_ARGUMENT..usize::MAX {
        match with_word_at(rt, given, at) {
            Some(more) => given = more,
            None => break,
        }
    }
    given
}

// Fills the buffer with the second file, and gives how many bytes it has there: none where the descriptor is closed.
fn read_second(rt: &impl Files, buffer: &mut [u8]) -> io::Result<usize>
    ensures { ReadsAtMost result buffer.new }
{
    match fs::open(rt, SECOND_FILE) {
        Ok(mut file) => read_input::fill(&mut file, buffer),
        Err(error) => {
            if error.kind() == ErrorKind::NotFound {
                return Ok(0);
            }
            Err(error)
        }
    }
}

// Reads the sheet and prints what the command says of it.
fn print(rt: &(impl Input + Print), command: Command) -> io::Result<()> {
    let mut input = [0u8; INPUT];
    let n = read_input::fill(&mut rt.reader(), &mut input)?;
    let mut out = [0u8; ROOM];
    let written: Written = commands::answer(command, &input[..n], &mut out);
    let count = written.count;
    rt.write_all(&out[..count])
}

// The same for the page of a plan, by its starts and instances.
fn print_page(
    rt: &(impl Input + Print),
    interval: usize,
    starts: &[usize],
    instances: &[usize],
) -> io::Result<()> {
    let mut input = [0u8; INPUT];
    let n = read_input::fill(&mut rt.reader(), &mut input)?;
    let mut out = [0u8; ROOM];
    let written: Written = commands::page_of_plan(
        &input[..n],
        interval,
        starts,
        instances,
        &mut out,
    );
    let count = written.count;
    rt.write_all(&out[..count])
}

// Reads the plan, and prints its page if it is one at the interval.
fn print_page_of_plan(
    rt: &(impl Files + Input + Print + Eprint),
    interval: usize,
) -> io::Result<()> {
    let mut input = [0u8; INPUT];
    let n = read_second(rt, &mut input)?;
    match plan_lines::read(&input[..n]) {
        Ok(plan) => {
            if plan.interval != interval {
                told::another_interval(rt);
                return Ok(());
            }
            let count = plan.count;
            let starts = plan.starts;
            let instances = plan.instances;
            print_page(rt, interval, &starts[..count], &instances[..count])
        }
        Err(fault) => {
            told::no_plan(rt, fault);
            Ok(())
        }
    }
}

// The same as `print` for a script.
fn print_table(rt: &(impl Input + Print), interval: usize, script: &[u8]) -> io::Result<()> {
    let mut input = [0u8; INPUT];
    let n = read_input::fill(&mut rt.reader(), &mut input)?;
    let mut out = [0u8; table_command::ROOM];
    let written: Written = table_command::answer(&input[..n], interval, script, &mut out);
    let count = written.count;
    rt.write_all(&out[..count])
}

// Reads the script, and prints what its steps are answered if each line is one.
fn print_table_of_script(
    rt: &(impl Files + Input + Print + Eprint),
    interval: usize,
) -> io::Result<()> {
    let mut script = [0u8; SCRIPT_INPUT];
    let n = read_second(rt, &mut script)?;
    let fault = table_script::line_at_fault(&script[..n]);
    if fault != 0 {
        told::no_step(rt, fault);
        return Ok(());
    }
    print_table(rt, interval, &script[..n])
}

// Prints what is answered to another supplier's answer, and says it in words.
fn print_judged(rt: &(impl Input + Print + Eprint), given: &[u8]) -> io::Result<()> {
    let mut input = [0u8; INPUT];
    let n = read_input::fill(&mut rt.reader(), &mut input)?;
    let mut out = [0u8; judge_command::ROOM];
    let written: Written = judge_command::answer(&input[..n], given, &mut out);
    let count = written.count;
    rt.write_all(&out[..count])?;
    let found = judge_command::examine(&input[..n], given);
    told::judged(rt, given, found.answer, found.line);
    Ok(())
}

// Room for another supplier's answer: in a function of its own, so that no proof looks into so many bytes.
fn answer_room() -> [u8; ANSWER_INPUT] {
    [0; ANSWER_INPUT]
}

// Reads another supplier's answer, and has it judged.
fn print_judged_answer(rt: &(impl Files + Input + Print + Eprint)) -> io::Result<()> {
    let mut given = answer_room();
    let n = read_second(rt, &mut given)?;
    print_judged(rt, &given[..n])
}

fn main(rt: HostRuntime) -> io::Result<()> {
    let mut name = [0u8; LONGEST_NAME];
    let n = rt.arg(1, &mut name).unwrap_or(0);
    match requests::request(&name[..n], arguments(&rt)) {
        Asked::Do(command) => print(&rt, command)?,
        Asked::PageOfPlan(interval) => print_page_of_plan(&rt, interval)?,
        Asked::Table(interval) => print_table_of_script(&rt, interval)?,
        Asked::Judge => print_judged_answer(&rt)?,
        Asked::Unknown => told::unknown(&rt),
        Asked::Strange => told::strange(&rt),
        Asked::Missing(argument) => told::fault(&rt, argument, " is missing"),
        Asked::Twice(argument) => told::fault(&rt, argument, " is given more than once"),
        Asked::Foreign(argument) => told::fault(&rt, argument, " is no argument of this command"),
    }
    Ok(())
}
