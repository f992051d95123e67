// Elimination's step tables: each step with its limits, and a round of them for each quantifier.
#![tactic(auto)]

pub mod locate;
pub mod parts;
pub mod rebuild;
pub mod rounds;
pub mod step;
