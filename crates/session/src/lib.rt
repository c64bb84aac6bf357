// Acceptance, work steps of every kind, drain and claims on an image that holds a valid session.
#![tactic(auto)]

pub mod accepts;
pub mod anystep;
pub mod claims;
pub mod drain;
