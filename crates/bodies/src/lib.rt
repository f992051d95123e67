// Loops over the nodes of a rule in a table: where it ends, D, P and the lower bounds.
#![tactic(auto)]

pub mod bound;
pub mod bounds;
pub mod cursor;
pub mod multiples;
pub mod span;
