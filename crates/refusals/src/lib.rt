// The refusals of every call, by name: each has its number in a result for C and in the lines of a batch (SCOPE 6).
#![tactic(auto)]

ghost use Rattle.std.specs.Prelude.{◌≡◌};
ghost use Rattle.refusals.specs.Refusals.{number_of};

// Why a call is refused (SCOPE 6.1 to 6.14; 6.6 is no longer given).
#[derive(Clone, Copy, Debug, PartialEq, Eq)]
pub enum Refusal {
    ShortStore,
    OutOfRange,
    Malformed,
    WrongEnd,
    PastBound,
    DegreePassed,
    CoefficientPassed,
    TooManyRelations,
    Contradiction,
    WrongState,
    ValuePassed,
    WrongLog,
    NotListed,
}

impl Refusal {
    // Its number.
    pub fn number(self) -> u8
        ensures { result ≡ number_of self }
    {
        match self {
            Refusal::ShortStore => 1,
            Refusal::OutOfRange => 2,
            Refusal::Malformed => 3,
            Refusal::WrongEnd => 4,
            Refusal::PastBound => 5,
            Refusal::DegreePassed => 7,
            Refusal::CoefficientPassed => 8,
            Refusal::TooManyRelations => 9,
            Refusal::Contradiction => 10,
            Refusal::WrongState => 11,
            Refusal::ValuePassed => 12,
            Refusal::WrongLog => 13,
            Refusal::NotListed => 14,
        }
    }
}
