// The session image in place: records read and written where they stand (docs/IMAGE.md).
#![tactic(auto)]

pub mod read;
mod region;
pub mod shift;
pub mod write;
