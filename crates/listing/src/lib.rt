// The listing of the session that an image holds, measured and written.
#![tactic(auto)]

pub mod measure;
pub mod rows;
pub mod write;
