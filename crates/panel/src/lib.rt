// What the panel and the host are given: the tally of the steps taken, and answers as numbers.
#![tactic(auto)]

pub mod returned;
pub mod tally;
