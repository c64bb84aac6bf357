// The lines that a host, a scheduler and a claimant send, each parsed from its part of the frame.
#![tactic(auto)]

pub mod call;
pub mod claim;
pub mod fields;
pub mod step;
