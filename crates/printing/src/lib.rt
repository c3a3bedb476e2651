// Prints on standard output what leastplan prints for the bytes of a sheet. The program and its test call the one
// function.
// No contract can say what is written to a file; what the bytes are is `report::report`.
#![tactic(auto)]

use report::ROOM;
use std::io;

// Gives the error of a write that fails.
pub fn print_report(rt: &impl Print, bytes: &[u8]) -> io::Result<()> {
    let mut out = [0u8; ROOM];
    let written = report::report(bytes, &mut out);
    let count = written.count;
    rt.write_all(&out[..count])
}
