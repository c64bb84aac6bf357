// A line that fills a line buffer of 64 bytes: what is kept of it in place of its bytes (S-7). Up to its targets no line of
// any form fills 64 bytes, so only a list of targets goes on behind them, and of a list numbers are kept.
#![tactic(auto)]

pub mod longline;
