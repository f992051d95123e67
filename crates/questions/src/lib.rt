// The leave-off test's question, as a table in lent bytes.
#![tactic(auto)]

pub mod place;
pub mod question;
