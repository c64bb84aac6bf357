// Lists of keys, as lines and pages write them: one reader, to which the bytes may come in pieces.
#![tactic(auto)]

pub mod keylist;
pub mod sofar;
