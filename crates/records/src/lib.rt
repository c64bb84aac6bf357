// The records of a session image and their bytes (docs/IMAGE.md), by value.
#![tactic(auto)]

pub mod bytes;
pub mod head;
pub mod labels;
pub mod node;
pub mod op;
pub mod result;
