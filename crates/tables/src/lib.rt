// A rule's table in lent bytes.
#![tactic(auto)]

pub mod check;
pub mod extent;
pub mod kind;
pub mod part;
pub mod quantifiers;
pub mod reading;
pub mod refusal;
pub mod settings;
pub mod words;
