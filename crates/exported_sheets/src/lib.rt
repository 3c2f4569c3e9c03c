// The calls on sheets and differential sheets whose results are numbers of a lent store (SCOPE 3.52).
#![tactic(auto)]

pub mod reads;
pub mod writes;
