// Columns of six kinds by number, asked and filled for a comparison of their answers with those of other code.
#![tactic(auto)]

pub mod admit;
mod answer;
pub mod columns;
pub mod convert;
pub mod fill;
pub mod lookup;
mod number;
