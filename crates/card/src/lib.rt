// The tables of a memory card, and the records that fill them.
#![tactic(auto)]

pub mod block;
pub mod line;
pub mod play;
pub mod record;
