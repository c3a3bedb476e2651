// Compares the two schedules on each line of standard input, and prints the verdict.
// A line has a count, then starts and instances of the first schedule, then those of the second; a space stands before
// each list of 24. Each number is one character: its code less that of 0. A tilde is the greatest number there is.
#![tactic(auto)]

use plan::Schedule;
use sizes::MOST_OPERATIONS;
use std::cmp::Ordering;
use std::io;

// The most bytes of standard input that are looked at.
const INPUT: usize = 65536;

// The bytes of a line with its line feed.
const LINE: usize = 102;

// The places of the four lists.
const FIRST_STARTS: usize = 2;

const FIRST_INSTANCES: usize = 27;

const SECOND_STARTS: usize = 52;

const SECOND_INSTANCES: usize = 77;

fn number(b: u8) -> usize {
    if b == b'~' {
        return 18446744073709551615;
    }
    if b < b'0' {
        return 0;
    }
    (b - b'0') as usize
}

fn numbers(s: &[u8]) -> [usize; MOST_OPERATIONS] {
    let mut list = [0usize; MOST_OPERATIONS];
    let mut i: usize = 0;
    while i < MOST_OPERATIONS {
        if i < s.len() {
            list[i] = number(s[i]);
        }
        i += 1;
    }
    list
}

fn print(rt: &impl Print, verdict: Ordering) -> io::Result<()> {
    match verdict {
        Ordering::Less => rt.write_all(b"before\n"),
        Ordering::Equal => rt.write_all(b"equal\n"),
        Ordering::Greater => rt.write_all(b"after\n"),
    }
}

fn answer(rt: &impl Print, line: &[u8]) -> io::Result<()> {
    if line.len() < LINE {
        return Ok(());
    }
    let first = Schedule {
        starts: numbers(&line[FIRST_STARTS..]),
        instances: numbers(&line[FIRST_INSTANCES..]),
    };
    let second = Schedule {
        starts: numbers(&line[SECOND_STARTS..]),
        instances: numbers(&line[SECOND_INSTANCES..]),
    };
    print(rt, plan::compare(number(line[0]), first, second))
}

fn answer_all(rt: &impl Print, input: &[u8]) -> io::Result<()> {
    let mut at: usize = 0;
    while LINE <= input.len() - at {
        let next = at + LINE;
        answer(rt, &input[at..next])?;
        at = next;
    }
    Ok(())
}

fn main(rt: HostRuntime) -> io::Result<()> {
    let mut input = [0u8; INPUT];
    let n = read_input::fill(&mut rt.reader(), &mut input)?;
    answer_all(&rt, &input[..n])
}
