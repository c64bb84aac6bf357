// Every line that the host and cgrun write is written and measured here.
#![tactic(auto)]

pub mod keylist;
pub mod lines;
