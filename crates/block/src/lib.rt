// Blocks: the entries of a register as bytes that outlive the program, and back.
#![tactic(auto)]

pub mod audit;
pub mod entries;
pub mod layout;
mod numbers;
pub mod packing;
pub mod unpacking;
