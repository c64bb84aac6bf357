// A load that anyone can repeat: call lines drawn from a seed.
#![tactic(auto)]

pub mod calls;
pub mod draws;
pub mod entry;
pub mod kind;
pub mod measure;
pub mod targets;
pub mod write;
