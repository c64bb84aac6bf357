// The flat session, and on it the work steps, acceptance, claims and drain: definitions and laws alone.
#![tactic(auto)]
