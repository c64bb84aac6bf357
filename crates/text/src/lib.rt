// Bytes of text: parts of a slice, decimal numbers read and written.
#![tactic(auto)]

pub mod cut;
pub mod number;
pub mod put;
