// Matching: whether a table's rule holds at six values.
#![tactic(auto)]

pub mod outcome;
mod range;
mod walk;
