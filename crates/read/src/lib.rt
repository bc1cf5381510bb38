// The reading side: read forms of stored images, and admission.
#![tactic(auto)]

pub mod element;
pub mod form;
pub mod run;
pub mod validate;
pub mod view;
