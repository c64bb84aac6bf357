// The test of refusal 2, in place: are the bytes the image of a valid session?
#![tactic(auto)]

pub mod fields;
pub mod pool;
pub mod rows;
pub mod session;
pub mod spaces;
