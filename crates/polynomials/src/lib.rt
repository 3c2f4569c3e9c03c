// Polynomials as the elimination uses them: slices of coefficients, power 0 first. Each contract gives the result by an
// equation with a definition of `algebra` or `rules`.
#![tactic(auto)]

pub mod content;
pub mod lengths;
pub mod shift;
