// The writing of sheets: behind `sheets::write_sheet`.
#![tactic(auto)]

pub mod writer;
