// The program's work but for reading and writing: a line of the input is served by one of the host's functions, and what
// is printed of it goes into a lent buffer.
#![tactic(auto)]

pub mod frame;
pub mod serve;
