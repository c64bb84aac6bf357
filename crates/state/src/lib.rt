// The flat session in the image, read and written in place.
#![tactic(auto)]

pub mod nodes;
pub mod operation;
pub mod ops;
pub mod results;
