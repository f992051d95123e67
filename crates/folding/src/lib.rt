// Folding: what a truth value does to what stands around it, as a rule is built from the back.
#![tactic(auto)]

pub mod answers;
