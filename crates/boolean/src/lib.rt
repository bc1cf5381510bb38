// Bools: marks as bits of words.
#![tactic(auto)]

pub mod bools;
pub mod form;
pub mod tail;
