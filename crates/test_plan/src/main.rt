// Prints for each piece of standard input, a sheet, what leastplan prints for it.
#![tactic(auto)]

use std::io;

// The most bytes of standard input that are looked at.
const INPUT: usize = 524288;

// Answers the piece at `at`, and gives the place after it; 0 where there is none.
fn answer(rt: &impl Print, input: &[u8], at: usize) -> io::Result<usize> {
    let piece = test_frames::next(input, at);
    if !piece.ok {
        return Ok(0);
    }
    let start = piece.start;
    let end = piece.end;
    rt.write_all(b"--\n")?;
    printing::print_report(rt, &input[start..end])?;
    Ok(end)
}

fn answer_all(rt: &impl Print, input: &[u8]) -> io::Result<()> {
    let mut at: usize = 0;
    while at < input.len() {
        let next = answer(rt, input, at)?;
        if next <= at {
            return Ok(());
        }
        at = next;
    }
    Ok(())
}

// Room for the input: in a function of its own, so that no proof looks into so many bytes.
fn room() -> [u8; INPUT] {
    [0; INPUT]
}

fn main(rt: HostRuntime) -> io::Result<()> {
    let mut input = room();
    let n = read_input::fill(&mut rt.reader(), &mut input)?;
    answer_all(&rt, &input[..n])
}
