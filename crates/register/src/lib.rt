// The entries of a register, the totals of an intake, and their lines of text.
#![tactic(auto)]

pub mod entry;
pub mod lines;
