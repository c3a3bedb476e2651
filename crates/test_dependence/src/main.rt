// Runs the dependence services and the bounds on each piece of the standard input, a loop sheet each, and prints their
// answers. tests/dependence_reference.py made the input and the output that is due.
#![tactic(auto)]

mod answers;
mod print;

use std::io;

// The most bytes of standard input that are looked at.
const INPUT: usize = 65536;

// Answers the piece at `at`, and gives the place after it; 0 where there is none.
fn one(rt: &impl Print, input: &[u8], at: usize, number: usize) -> io::Result<usize> {
    let frame = test_frames::next(input, at);
    if !frame.ok {
        return Ok(0);
    }
    let start = frame.start;
    let end = frame.end;
    test_print::line(rt, b"piece=", number)?;
    answers::sheet(rt, &input[start..end])?;
    Ok(end)
}

fn run(rt: &impl Print, input: &[u8]) -> io::Result<()> {
    let mut at: usize = 0;
    let mut number: usize = 0;
    while at < input.len() {
        let next = one(rt, input, at, number)?;
        if next <= at {
            return Ok(());
        }
        at = next;
        number += 1;
    }
    Ok(())
}

fn main(rt: HostRuntime) -> io::Result<()> {
    let mut input = [0u8; INPUT];
    let n = read_input::fill(&mut rt.reader(), &mut input)?;
    run(&rt, &input[..n])
}
