// What each step makes of the chosen quantifier, and of what stands around it.
#![tactic(auto)]

pub mod around;
pub mod blocks;
pub mod disjunct;
pub mod disjunction;
pub mod far;
pub mod full;
pub mod made;
pub mod numbers;
pub mod sums;
pub mod survey;
