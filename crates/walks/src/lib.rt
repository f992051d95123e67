// The walks over a rule in a table that build what a step makes of it: folding, and normal form.
#![tactic(auto)]

pub mod both;
pub mod chain;
pub mod fold;
pub mod literal;
pub mod normal;
pub mod normal_literal;
pub mod put;
