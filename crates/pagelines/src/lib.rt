// The lines of a page: the head and a node's, each written into a lent buffer and read where it stands.
#![tactic(auto)]

pub mod columns;
pub mod read;
pub mod write;
