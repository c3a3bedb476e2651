// Runs scripts on placing tables and prints what is answered. Standard input has pieces in pairs, a sheet and then the
// script for it.
#![tactic(auto)]

mod print;
mod script;

use std::io;

// The most bytes of standard input that are looked at.
const INPUT: usize = 524288;

fn answer(rt: &impl Print, bytes: &[u8], lines: &[u8]) -> io::Result<()> {
    rt.write_all(b"--\n")?;
    let read = reader::read(bytes);
    let sheet = read.sheet;
    script::run(rt, sheet, lines)
}

// The sheet and the script at `at`, and the place after them; 0 where they are not there.
fn answer_pair(rt: &impl Print, input: &[u8], at: usize) -> io::Result<usize> {
    let first = test_frames::next(input, at);
    if !first.ok {
        return Ok(0);
    }
    let start = first.start;
    let end = first.end;
    let second = test_frames::next(input, end);
    if !second.ok {
        return Ok(0);
    }
    let from = second.start;
    let to = second.end;
    answer(rt, &input[start..end], &input[from..to])?;
    Ok(to)
}

fn answer_all(rt: &impl Print, input: &[u8]) -> io::Result<()> {
    let mut at: usize = 0;
    while at < input.len() {
        let next = answer_pair(rt, input, at)?;
        if next <= at {
            return Ok(());
        }
        at = next;
    }
    Ok(())
}

// Room for the input: in a function of its own, so that no proof looks into so many bytes.
fn room() -> [u8; INPUT] {
    [0; INPUT]
}

fn main(rt: HostRuntime) -> io::Result<()> {
    let mut input = room();
    let n = read_input::fill(&mut rt.reader(), &mut input)?;
    answer_all(&rt, &input[..n])
}
