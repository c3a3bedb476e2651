// Reads each piece of standard input as a sheet and prints its answer; of an accepted sheet also the text written back,
// and what the writer answers in a buffer one byte too short.
#![tactic(auto)]

use sheet::Sheet;
use std::io;

// The most bytes of standard input that are looked at.
const INPUT: usize = 524288;

// Room for a sheet that is written back.
const ROOM: usize = 4096;

// What the writer answers in the first n bytes of a buffer.
fn write_short(rt: &impl Print, sheet: Sheet, out: &mut [u8], n: usize) -> io::Result<()> {
    if n <= out.len() {
        let written = writer::write(sheet, &mut out[..n]);
        test_print::line(rt, b"written=", written.answer)?;
    }
    Ok(())
}

fn write_back(rt: &impl Print, sheet: Sheet) -> io::Result<()> {
    let mut out = [0u8; ROOM];
    let written = writer::write(sheet, &mut out);
    test_print::line(rt, b"written=", written.answer)?;
    test_print::front(rt, &out, written.count)?;
    if 0 < written.count {
        write_short(rt, sheet, &mut out, written.count - 1)?;
    }
    Ok(())
}

fn answer_sheet(rt: &impl Print, bytes: &[u8]) -> io::Result<()> {
    let read = reader::read(bytes);
    test_print::line(rt, b"--\nanswer=", read.answer)?;
    if read.answer == 0 {
        let sheet = read.sheet;
        write_back(rt, sheet)?;
    }
    Ok(())
}

// Answers the piece at `at`, and gives the place after it; 0 where there is none.
fn answer(rt: &impl Print, input: &[u8], at: usize) -> io::Result<usize> {
    let piece = test_frames::next(input, at);
    if !piece.ok {
        return Ok(0);
    }
    let start = piece.start;
    let end = piece.end;
    answer_sheet(rt, &input[start..end])?;
    Ok(end)
}

fn answer_all(rt: &impl Print, input: &[u8]) -> io::Result<()> {
    let mut at: usize = 0;
    while at < input.len() {
        let next = answer(rt, input, at)?;
        if next <= at {
            return Ok(());
        }
        at = next;
    }
    Ok(())
}

// Room for the input: in a function of its own, so that no proof looks into so many bytes.
fn room() -> [u8; INPUT] {
    [0; INPUT]
}

fn main(rt: HostRuntime) -> io::Result<()> {
    let mut input = room();
    let n = read_input::fill(&mut rt.reader(), &mut input)?;
    answer_all(&rt, &input[..n])
}
