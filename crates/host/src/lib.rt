// What a host in C links, and the same by value for the program: opening, a line served or refused by number, the listing.
#![tactic(auto)]

pub mod call;
pub mod claim;
pub mod lent;
pub mod list;
pub mod step;
