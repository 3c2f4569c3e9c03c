// The kinds of the steps of a log, by name: each has its number in a log (SCOPE 13.12).
ghost use Rattle.std.specs.Prelude.{◌≡◌, pos};
ghost use Rattle.log_steps.specs.Kinds.{number_of, KindRead};

use refusals::Refusal;

// What a step does: two rows change places, a row becomes a combination, goes up or down by a block, or is left out.
#[derive(Clone, Copy, Debug, PartialEq, Eq)]
pub enum Kind {
    Exchange,
    Combination,
    Raise,
    Lower,
    Drop,
}

impl Kind {
    // Its number.
    pub fn number(self) -> i64
        ensures { result ≡ pos (number_of self) }
    {
        match self {
            Kind::Exchange => 1,
            Kind::Combination => 2,
            Kind::Raise => 3,
            Kind::Lower => 4,
            Kind::Drop => 5,
        }
    }
}

// A number that no kind has makes a log wrong (SCOPE 13.12).
impl TryFrom<i64> for Kind {
    type Error = Refusal;

    ghost try_from_gives = { KindRead };

    fn try_from(number: i64) -> Result<Kind, Refusal> {
        match number {
            1 => Ok(Kind::Exchange),
            2 => Ok(Kind::Combination),
            3 => Ok(Kind::Raise),
            4 => Ok(Kind::Lower),
            5 => Ok(Kind::Drop),
            _ => Err(Refusal::WrongLog),
        }
    }
}
