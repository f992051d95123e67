// The nodes of a step table, put from the back of a lent buffer.
#![tactic(auto)]

pub mod front;
pub mod push;
