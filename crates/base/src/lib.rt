// Refusals, and lists and whole numbers that every layer speaks of.
#![tactic(auto)]

// Why a call is refused, each with the number that specs/Refusals.antt gives it.
#[derive(Clone, Copy, PartialEq, Eq)]
pub enum Kind {
    BadHeader = 1,
    BadForm = 2,
    BadSize = 3,
    BadEntry = 4,
    NotMatrix = 5,
    BadDisplacement = 6,
    BadParameter = 7,
    Unsound = 8,
    TooShort = 9,
    NoWorker = 10,
    NotState = 11,
    AllDone = 12,
    MustWait = 13,
    Overflow = 14,
    TooEarly = 15,
    BadLayout = 16,
    BadSurvey = 17,
    NoCrew = 18,
    Elsewhere = 19,
    NotForces = 20,
    NoEntry = 21,
    BadChange = 22,
    BadPlaces = 23,
    PastLimits = 24,
    NoRegister = 25,
    NotPrepared = 26,
}

// A refusal: why, and the place that document 01 names with it.
#[derive(Clone, Copy)]
pub struct Refusal {
    pub kind: Kind,
    pub place: u32,
}

impl Kind {
    ghost use Rattle.std.specs.Prelude.{◌≡◌};
    ghost use Rattle.base.specs.Verdicts.{number_of};

    // The number of a kind.
    pub fn number(self) -> u32
        ensures { result ≡ number_of self }
    {
        self as u32
    }
}
