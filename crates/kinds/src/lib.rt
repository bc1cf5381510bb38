// The kinds of the card by their numbers, and the check of a stored image that the boot loader calls.
#![tactic(auto)]

pub mod check;
pub mod kinds;
