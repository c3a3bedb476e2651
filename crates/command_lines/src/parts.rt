// Lines that several answers share. Callers give numbers that a line can have.
ghost use Rattle.std.specs.Prelude.{List, [], ◌∷◌, ◌++◌, ◌≡◌, ◌+◌, ◌≤◌, take};
ghost use Rattle.lines.specs.Lines.{most_lines};
ghost use Rattle.text.specs.Lines.{Line};
ghost use Rattle.text.specs.Line.{key_of};
ghost use Rattle.text.specs.Sizes.{greatest_number};
ghost use Rattle.text.specs.Answers.{answer_line, interval_line, loop_line};
ghost use Rattle.command_lines.specs.Listing.{bound_lines, answer_at, denial_lines};
ghost use Rattle.command_lines.specs.Shows.{Shows, Printable, Sized};

use lines::Lines;
use sizes::MOST_OPERATIONS;
use text::Key;

// The answer to question 5: the dependences cannot be met.
pub const INFEASIBLE: usize = 5;

// The line `answer=` alone.
pub fn alone(answer: usize) -> Lines
    requires { answer ≤ greatest_number }
    ensures { Shows result (answer_line answer ∷ []) }
{
    lines::with(lines::none(), text_line::count_line(Key::Answer, answer))
}

// The lines `answer=` and `interval=`.
pub fn headed(answer: usize, interval: usize) -> Lines
    requires { (answer ≤ greatest_number) × (interval ≤ greatest_number) }
    ensures { Shows result (answer_line answer ∷ interval_line interval ∷ []) }
{
    lines::with(
        alone(answer),
        text_line::count_line(Key::Interval, interval),
    )
}

// The line `loop=` after others.
pub fn looped(ls: Lines, count: usize, edges: [usize; MOST_OPERATIONS]) -> Lines
    requires { (ls.count + 1 ≤ most_lines) × Printable edges }
    ensures { (want : List Line) → Shows ls want → Shows result (want ++ (loop_line (take count edges) ∷ [])) }
{
    lines::with(ls, lines::numbers_line(Key::Loop, count, edges))
}

// An answer other than 0 at an interval: with 5 the interval and the loop, else its number alone.
pub fn refused(
    answer: usize,
    interval: usize,
    count: usize,
    edges: [usize; MOST_OPERATIONS],
) -> Lines
    requires { Sized answer interval edges × (answer ≡ 0 → ⊥) }
    ensures { (given : List Line) → Shows result (answer_at answer interval (take count edges) given) }
{
    if answer == INFEASIBLE {
        return looped(headed(answer, interval), count, edges);
    }
    alone(answer)
}

// Why there is no plan: the answer, and with 5 the loop.
pub fn denied(answer: usize, count: usize, edges: [usize; MOST_OPERATIONS]) -> Lines
    requires { (answer ≤ greatest_number) × (answer ≡ 5 → Printable edges) }
    ensures { Shows result (denial_lines answer (take count edges)) }
{
    let answered = alone(answer);
    if answer == INFEASIBLE {
        return looped(answered, count, edges);
    }
    answered
}

// A bound after other lines: its answer and, where that is 0, its value under the key.
pub fn bound(ls: Lines, key: Key, answer: usize, value: usize) -> Lines
    requires { (ls.count + 2 ≤ most_lines) × (answer ≤ greatest_number) × (value ≤ greatest_number) }
    ensures { (want : List Line) → Shows ls want → Shows result (want ++ bound_lines (key_of key) answer value) }
{
    let answered = lines::with(ls, text_line::count_line(Key::Answer, answer));
    if answer != 0 {
        return answered;
    }
    lines::with(answered, text_line::count_line(key, value))
}
