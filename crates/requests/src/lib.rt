// What the words of a command ask for, when all of them have been seen: words/specs/Requests.antt says what. A crate of
// its own for the check's time.
#![tactic(auto)]

ghost use Rattle.std.specs.Prelude.{◌≡◌};
ghost use Rattle.words.specs.Requests.{interval_rows, counted, taking, request_in, request_of};

use words::{Argument, Asked, Command, Given, Times};

// What is then asked for, where an argument is given once if it is taken, and else not at all.
#[tactic(auto, unfolding(words::specs::Requests::counted))]
fn counted(argument: Argument, times: Times, taken: bool, then: Asked) -> Asked
    ensures { result ≡ counted argument times taken then }
{
    match (taken, times) {
        (true, Times::Never) => Asked::Missing(argument),
        (true, Times::Again) => Asked::Twice(argument),
        (false, Times::Once | Times::Again) => Asked::Foreign(argument),
        _ => then,
    }
}

// What is then asked for, where the arguments are those that the command takes.
#[tactic(auto, unfolding(words::specs::Requests::taking))]
fn taking(given: Given, interval: bool, pair: bool, then: Asked) -> Asked
    ensures { result ≡ taking given interval pair then }
{
    if given.strange {
        return Asked::Strange;
    }
    let then = counted(Argument::Pair, given.pairs, pair, then);
    counted(Argument::Interval, given.intervals, interval, then)
}

// What is asked for by the name of a command at an interval.
#[tactic(auto, using(words::specs::Laws::passed, words::specs::Laws::found, words::specs::Laws::no_row))]
fn at_interval(name: &[u8], given: Given) -> Asked
    ensures { result ≡ request_in interval_rows name.now given }
{
    let interval = given.interval;
    if check::same(name, b"starts") {
        return taking(given, true, false, Asked::Do(Command::Starts(interval)));
    }
    if check::same(name, b"separations") {
        let separations = Command::Separations(interval);
        return taking(given, true, false, Asked::Do(separations));
    }
    if check::same(name, b"plan") {
        return taking(given, true, false, Asked::Do(Command::Plan(interval)));
    }
    if check::same(name, b"page") {
        return taking(given, true, false, Asked::Do(Command::Page(interval)));
    }
    if check::same(name, b"page_of_plan") {
        return taking(given, true, false, Asked::PageOfPlan(interval));
    }
    if check::same(name, b"table") {
        return taking(given, true, false, Asked::Table(interval));
    }
    if check::same(name, b"order") {
        let order = Command::Order(interval, given.pair);
        return taking(given, true, true, Asked::Do(order));
    }
    Asked::Unknown
}

// The command of that name with its numbers, where the arguments are those that it takes, each once; else the first
// thing that is wrong.
#[tactic(auto, using(words::specs::Laws::passed, words::specs::Laws::found, words::specs::Laws::no_row))]
pub fn request(name: &[u8], given: Given) -> Asked
    ensures { result ≡ request_of name.now given }
{
    if check::same(name, b"bounds") {
        return taking(given, false, false, Asked::Do(Command::Bounds));
    }
    if check::same(name, b"check") {
        return taking(given, false, false, Asked::Do(Command::Check));
    }
    if check::same(name, b"write") {
        return taking(given, false, false, Asked::Do(Command::Write));
    }
    if check::same(name, b"judge") {
        return taking(given, false, false, Asked::Judge);
    }
    at_interval(name, given)
}
