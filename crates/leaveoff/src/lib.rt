// The calls on lent bytes: elimination, the leave-off test and matching.
#![tactic(auto)]

pub mod answer;
pub mod eliminate;
pub mod exports;
pub mod leave_off;
mod making;
pub mod matching;
mod result;
mod verdict;
