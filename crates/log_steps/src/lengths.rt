// The lengths of a log: `step_length`, `most_steps` and `own_need` of the specs (SCOPE 13.1, 13.11).
use polynomials::lengths::COEFFICIENTS;
use stores::lengths::COLUMNS;

// Where the coefficients of g begin in the numbers of a step: behind the kind, i, j and the integer.
pub const G: usize = 4;

// Behind them those of h.
pub const H: usize = G + COEFFICIENTS;

// The numbers of a step.
pub const STEP: usize = H + COEFFICIENTS;

// The most steps of a log.
pub const STEPS: usize = 1000;

// Room for the longest log and the four numbers behind it (SCOPE 13.52).
pub const LOG: usize = STEPS * STEP + COLUMNS;
