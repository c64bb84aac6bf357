// The input in pieces, as reads give them, through a line buffer of 64 bytes (S-7): the state between two reads, a piece fed, and
// the end of the input.
#![tactic(auto)]

pub mod between;
pub mod ends;
pub mod feed;
pub mod frame;
pub mod serving;
