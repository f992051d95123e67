// A body judged at 64 values of x at once, as two masks of 64 bits: one has bit k where the body folds to true at the
// k-th value, the other where it folds to false.
#![tactic(auto)]

pub mod answers;
pub mod judge;
pub mod literal;
pub mod masks;
pub mod shift;
