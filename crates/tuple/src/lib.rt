// Elements that hold nothing, and pairs.
#![tactic(auto)]

pub mod empties;
pub mod form;
pub mod pair;
#[cfg(test)]
mod tests;
