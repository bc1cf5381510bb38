// Kinds and columns: the interfaces, the element types, runs, and the one append.
#![tactic(auto)]

pub mod append;
pub mod element;
pub mod kind;
pub mod run;
