// The side of a run, and what it decides on checked stores: the order in which relations are listed, the mirror, and the root report.
#![tactic(auto)]

pub mod listing;
pub mod mirror;
pub mod report;

// The side that is made triangular: block l, or block t (SCOPE 2.71, 2.93).
#[derive(Drop)]
#[derive(Clone, Copy)]
pub enum Side {
    Leading,
    Trailing,
}
