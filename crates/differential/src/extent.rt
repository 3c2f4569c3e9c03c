// The first two lines of a differential sheet: 3, m, K and J, and the number of equations (SCOPE 10.2, 10.3).
ghost use Rattle.tokens.specs.Fields.{Reads};
ghost use Rattle.differential.specs.Grammar.{read_extent};
ghost use Rattle.differential.specs.Read.{extent_of};

use refusals::Refusal;

// The highest derivative and the highest power of the variable that a sheet may name.
pub(crate) const MOST_DERIVATIVE: i64 = 2;

pub(crate) const MOST_POWER: i64 = 2;

// The unknowns, the highest derivative, the highest power of the variable, and the number of equations.
#[derive(Clone, Copy, Debug, PartialEq, Eq)]
pub(crate) struct Extent {
    pub unknowns: usize,
    pub order: usize,
    pub degree: usize,
    pub equations: usize,
}

// What those lines say, and the place after them.
#[derive(Clone, Copy, Debug, PartialEq, Eq)]
pub(crate) struct ExtentRead {
    pub at: usize,
    pub extent: Extent,
}

// The line `3 m K J`, and the line with the number of equations, 0 to 6 (SCOPE 10.12).
pub(crate) fn extent_at(bytes: &[u8]) -> Result<ExtentRead, Refusal>
    ensures { Reads bytes.now (λ e. extent_of e.extent) (λ e. e.at) result (read_extent bytes.now) }
{
    let m = reading::sizes::unknowns_at(bytes, 0)?;
    let k = tokens::number_between(bytes, m.at, 0, MOST_DERIVATIVE, 32)?;
    let j = tokens::number_between(bytes, k.at, 0, MOST_POWER, 10)?;
    let n = tokens::number_between(bytes, j.at, 0, 6, 10)?;
    Ok(ExtentRead {
        at: n.at,
        extent: Extent {
            unknowns: m.value as usize,
            order: k.value as usize,
            degree: j.value as usize,
            equations: n.value as usize,
        },
    })
}
