// Strides: block ends as multiples of a stride and the bounds after them.
#![tactic(auto)]

pub mod bounds;
pub mod form;
pub mod head;
pub mod strides;
