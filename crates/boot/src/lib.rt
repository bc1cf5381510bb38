// The boot step: a stored image is admitted, read and written again in one shape, in memory that is lent.
#![tactic(auto)]

pub mod convert;
