// Numbers and tables as text in lent bytes.
#![tactic(auto)]

pub mod decimal;
pub mod lent;
pub mod lines;
