// The elimination over checked stores: one step, and the whole run. Each contract says what the definition of `rules` does to the
// state that the stores hold.
#![tactic(auto)]

pub mod dropping;
pub mod exchanging;
pub mod looking;
pub mod run;
pub mod step;
