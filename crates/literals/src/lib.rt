// One literal of a table: its test and its value, and what the steps make of it.
#![tactic(auto)]

pub mod change;
pub mod literal;
pub mod row;
