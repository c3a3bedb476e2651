// The words of a command, `COMMAND [interval=L] [pair=P]`: what each argument says; `requests` tells what all of them
// ask for. The program `ask` takes the words from the system and has what they ask for answered.
#![tactic(auto)]

ghost use Rattle.std.specs.Prelude.{◌≡◌};
ghost use Rattle.words.specs.Arguments.{number_after, once_more, with_word};

use scan::NO_MINUS;

// A command and its numbers: an interval, and a pair.
#[derive(Clone, Copy)]
pub enum Command {
    Bounds,
    Starts(usize),
    Separations(usize),
    Plan(usize),
    Page(usize),
    Order(usize, usize),
    Check,
    Write,
}

// The arguments.
#[derive(Clone, Copy)]
pub enum Argument {
    Interval,
    Pair,
}

// What the words ask for: a command to be done on the sheet alone, or, with lines that come besides, the page of a plan
// or a script on a placing table, both at an interval, or another supplier's answer judged; or what is wrong with them:
// no such command, a word that is no argument, an argument that is missing, given more than once, or not taken by this
// command.
#[derive(Clone, Copy)]
pub enum Asked {
    Do(Command),
    PageOfPlan(usize),
    Table(usize),
    Judge,
    Unknown,
    Strange,
    Missing(Argument),
    Twice(Argument),
    Foreign(Argument),
}

// How often an argument was given; `Again` is twice or more.
#[derive(Clone, Copy)]
pub enum Times {
    Never,
    Once,
    Again,
}

// The arguments so far: how often each was given and its last number, 0 before there is one; whether some word is no
// argument.
#[derive(Clone, Copy)]
pub struct Given {
    pub intervals: Times,
    pub interval: usize,
    pub pairs: Times,
    pub pair: usize,
    pub strange: bool,
}

// Before the first word.
pub const NOTHING: Given = Given {
    intervals: Times::Never,
    interval: 0,
    pairs: Times::Never,
    pair: 0,
    strange: false,
};

// The number of the argument with this key, where the line is that and nothing more.
#[tactic(auto, using(crate::specs::Laws::no_line, crate::specs::Laws::more_after, crate::specs::Laws::number, crate::specs::Laws::whole))]
fn number_after(line: &[u8], key: &[u8]) -> Option<usize>
    ensures { result ≡ number_after key.now line.now }
{
    let read = scan::read_line(line, 0, key, 1, NO_MINUS)?;
    if read.next < line.len() {
        return None;
    }
    let values = read.values;
    Some(values[0] as usize)
}

// One time more.
fn once_more(times: Times) -> Times
    ensures { result ≡ once_more times }
{
    match times {
        Times::Never => Times::Once,
        _ => Times::Again,
    }
}

// One word more; `line` has its bytes and a line feed after them.
#[tactic(auto, using(crate::specs::Laws::interval_word, crate::specs::Laws::pair_word, crate::specs::Laws::other_word))]
pub fn with_word(given: Given, line: &[u8]) -> Given
    ensures { result ≡ with_word given line.now }
{
    let mut more = given;
    if let Some(n) = number_after(line, b"interval=") {
        more.intervals = once_more(given.intervals);
        more.interval = n;
        return more;
    }
    if let Some(n) = number_after(line, b"pair=") {
        more.pairs = once_more(given.pairs);
        more.pair = n;
        return more;
    }
    more.strange = true;
    more
}
