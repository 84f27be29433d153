// The reading of a stream: its records one after the other, and where it stops or ends.
#![tactic(auto)]

pub mod listing;
pub mod steps;
