// Tables: a column or a stored image, the calls on them, and the conversion at boot.
#![tactic(auto)]

pub mod convert;
mod landing;
pub mod stash;
pub mod steps;
pub mod table;
