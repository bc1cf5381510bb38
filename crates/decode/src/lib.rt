// An index read back: the slices of a store, and of a byte area.
#![tactic(auto)]

pub mod decode;
pub mod decoded;
pub mod span;
