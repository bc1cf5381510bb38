// Words, bytes and refusals: what every layer above speaks in.
#![tactic(auto)]

pub mod fault;
pub mod words;
