// The refusals of all services: why there is no answer. Each has its number in the table of answers of docs/FORMAT.md,
// where 0 is no refusal.
#![tactic(auto)]

ghost use Rattle.std.specs.Prelude.{◌≡◌};
ghost use Rattle.refusal.specs.Number.{number_of};

// Why a service refuses, with its number.
#[derive(Clone, Copy, PartialEq, Eq)]
pub enum Refusal {
    // of a sheet as text
    TooLong = 1,
    Malformed = 2,
    // of a sheet and an interval
    OutOfRange = 3,
    IntervalOutOfRange = 4,
    // of a plan
    BadClosedWalk = 5,
    NoPlan = 6,
    NoInterval = 7,
    NoIntervalWithoutBadWalk = 8,
    BufferTooShort = 9,
    // of a placing table
    ContradictoryTable = 10,
    PlaceOutOfRange = 11,
    AlreadyPlaced = 12,
    NoFreeInstance = 13,
    // of a slot order
    PairOutOfRange = 14,
    NotOneLimitedType = 15,
    // of a sheet, after OutOfRange in the same line
    EmptyWindow = 16,
    // of a booking
    InstanceNotFree = 17,
    // of another supplier's answer
    MalformedAnswer = 18,
    WrongAnswer = 19,
}

impl Refusal {
    // Its number in the table of answers.
    pub fn number(self) -> usize
        ensures { result ≡ number_of self }
    {
        self as usize
    }
}
