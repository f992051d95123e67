// Finishing: the rule that is built at the end of one buffer becomes a table at the start of another.
#![tactic(auto)]

pub mod finish;
