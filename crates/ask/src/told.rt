// What is said on standard error where the words ask for no command, a line of a plan is none, or a line of a script is
// no step; and of another supplier's answer, whether it passed or not. `./leastplan` speaks to the person, so its name
// stands first. The words themselves are not repeated.
use plan_lines::MOST_LINES;
use table_script::MOST_STEPS;
use words::Argument;

// What cannot be said is lost: the answer on standard output is the same.
fn say(rt: &impl Eprint, text: &str) {
    let _ = rt.eprint(text);
}

// What is named and what is wrong with it, in one line.
fn line(rt: &impl Eprint, what: &str, wrong: &str) {
    say(rt, "leastplan: ");
    say(rt, what);
    say(rt, wrong);
    say(rt, "; try --help\n")
}

pub fn unknown(rt: &impl Eprint) {
    line(rt, "unknown command", "");
}

pub fn strange(rt: &impl Eprint) {
    line(
        rt,
        "an argument",
        " is not name=number, the number one to four digits with no leading zero",
    )
}

// What is wrong with an argument.
pub fn fault(rt: &impl Eprint, argument: Argument, wrong: &str) {
    match argument {
        Argument::Interval => line(rt, "interval=", wrong),
        Argument::Pair => line(rt, "pair=", wrong),
    }
}

// What is wrong with a line of a file, which goes by its number.
fn at_line(rt: &impl Eprint, number: usize, wrong: &str) {
    say(rt, "leastplan: line ");
    let _ = rt.eprint(number);
    say(rt, wrong);
    say(rt, "\n");
}

// The line of a plan that is not as leastplan prints it, or is past the most, by its number.
pub fn no_plan(rt: &impl Eprint, number: usize) {
    if MOST_LINES < number {
        at_line(
            rt,
            number,
            " of the plan is past the 24 lines at=t,u that it may have; try --help",
        )
    } else {
        at_line(
            rt,
            number,
            " of the plan is not as in answer=0, interval=L and lines at=t,u, as leastplan prints them; try --help",
        )
    }
}

pub fn another_interval(rt: &impl Eprint) {
    line(
        rt,
        "the plan",
        " is of another interval than the one asked for",
    )
}

// The line of a script that is no step, or is past the most, by its number.
pub fn no_step(rt: &impl Eprint, number: usize) {
    if MOST_STEPS < number {
        at_line(
            rt,
            number,
            " of the script is past the 1,024 lines that it may have; try --help",
        )
    } else {
        at_line(
            rt,
            number,
            " of the script is not offer=op,start, book=op,start,instance or place=op,start; try --help",
        )
    }
}

// The place of the number in `answer=0`, which begins a plan.
const ANSWER_AT: usize = 7;

// Whether another supplier's answer, whose first line is well formed, is a plan and no denial.
fn is_plan(given: &[u8]) -> bool {
    if given.len() <= ANSWER_AT {
        return false;
    }
    given[ANSWER_AT] == b'0'
}

// What passed: the plan or the tree of a denial.
fn passed(rt: &impl Eprint, plan: bool) {
    if plan {
        say(rt, "leastplan: the plan keeps every rule\n");
    } else {
        say(
            rt,
            "leastplan: the tree shows that no plan exists at this interval\n",
        )
    }
}

// A line that is well formed and does not hold.
fn not_so(rt: &impl Eprint, plan: bool, number: usize) {
    if plan {
        at_line(rt, number, " of the answer breaks a rule of a plan");
    } else {
        at_line(rt, number, " of the answer is not so");
    }
}

// What is answered to another supplier's answer, and the line of it at fault.
pub fn judged(rt: &impl Eprint, given: &[u8], answer: usize, number: usize) {
    match answer {
        0 => passed(rt, is_plan(given)),
        4 => at_line(
            rt,
            number,
            " of the answer names an interval that is not in 1 to the cap",
        ),
        18 => at_line(
            rt,
            number,
            " of the answer is missing, malformed, or none that may stand there for this sheet",
        ),
        19 => not_so(rt, is_plan(given), number),
        _ => say(rt, "leastplan: the sheet is refused; try check\n"),
    }
}
