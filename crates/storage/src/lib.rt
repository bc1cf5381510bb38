// Stores and sinks: where images are read from and written to.
#![tactic(auto)]

pub mod compare;
pub mod store;
pub mod write;
