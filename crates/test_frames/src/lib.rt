// Splits one input into pieces, so that a program can be run on many: each piece stands after a line `bytes=N`, and is
// the N bytes after that line.
#![tactic(auto)]

ghost use Rattle.std.specs.Prelude.{◌≡◌, drop};
ghost use Rattle.test_frames.specs.Piece.{piece_of, seen_piece, FrameFits};

use scan::{NO_MINUS, read_line};

// A piece: the bytes from `start` up to, not including, `end`.
#[derive(Clone, Copy)]
pub struct Frame {
    pub ok: bool,
    pub start: usize,
    pub end: usize,
}

// The piece whose line stands at `at`. Not ok, and both places 0, where there is no such line or fewer bytes follow it
// than it says.
#[tactic(auto, using(crate::specs::PieceLaws::nowhere, crate::specs::PieceLaws::no_line, crate::specs::PieceLaws::line_read, crate::specs::PieceLaws::negative, crate::specs::PieceLaws::too_few, crate::specs::PieceLaws::enough), unfolding(crate::specs::Piece::seen_piece))]
pub fn next(s: &[u8], at: usize) -> Frame
    ensures result_value { seen_piece s.now result ≡ piece_of (drop at s.now) }
    ensures frame_fits { FrameFits s.now result }
{
    let none = Frame {
        ok: false,
        start: 0,
        end: 0,
    };
    let Some(line) = read_line(s, at, b"bytes=", 1, NO_MINUS) else {
        return none;
    };
    let values = line.values;
    let size = values[0];
    if size < 0 {
        return none;
    }
    let start = line.next;
    let left = s.len() - start;
    if left < size as usize {
        return none;
    }
    Frame {
        ok: true,
        start,
        end: start + size as usize,
    }
}
