// Calls on the image: their acceptance, their admission, and where a claim finds its result.
#![tactic(auto)]

pub mod accept;
pub mod admit;
pub mod claim;
