// The page of a session's graph, written; and a page read back as the listing's lines of its nodes.
#![tactic(auto)]

pub mod measure;
pub mod read;
pub mod write;
