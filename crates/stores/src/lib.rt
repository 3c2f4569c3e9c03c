// Rows in lent stores: loaded as arrays of 336 numbers (SCOPE 3.2), saved, and checked. Each contract gives the result
// by an equation with a definition of `rules` at the row that the numbers hold, `row_of`.
#![tactic(auto)]

pub mod checks;
pub mod lengths;
pub mod rows;
pub mod validity;
