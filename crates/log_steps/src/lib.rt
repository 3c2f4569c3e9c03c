// The steps of a log on lent stores: the exchange of two rows, their combination, the shifts, the drop of a row. Each asks for stores that are
// ready, and gives the state of `changed` or the refusal.
#![tactic(auto)]

pub mod changing;
pub mod combining;
pub mod kinds;
pub mod lengths;
mod lowering;
