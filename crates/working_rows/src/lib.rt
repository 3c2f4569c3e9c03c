// What is done to one row: width, leading entries, shift, mirror, and the limits of a new one. Each contract gives the result
// by an equation with a definition of `rules` at the row that the numbers hold, `row_of`.
#![tactic(auto)]

use polynomials::lengths::COEFFICIENTS;
use stores::lengths::ENTRIES;

pub mod entries;
pub mod limits;
pub mod mirroring;
pub mod shifting;
pub mod stored;

// A row that is worked on, handed on by value (SCOPE 8.2): the entries of its left part, its right side, and its width, which
// is worked out once.
#[derive(Drop)]
pub struct WorkingRow {
    pub entries: [i64; ENTRIES],
    pub right: [i64; COEFFICIENTS],
    pub width: usize,
}
