// leastplan: reads a loop sheet from standard input and prints each interval up to the least one that has a plan.
// What it prints is a function of the bytes in the library, `report::report`.
#![tactic(auto)]

use reader::LONGEST_SHEET;
use std::io;

// One byte more than a sheet may have, so that a longer one is told.
const INPUT: usize = LONGEST_SHEET + 1;

fn main(rt: HostRuntime) -> io::Result<()> {
    let mut input = [0u8; INPUT];
    let n = read_input::fill(&mut rt.reader(), &mut input)?;
    printing::print_report(&rt, &input[..n])
}
