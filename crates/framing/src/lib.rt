// Framings of the AD2CP byte stream: where a frame begins and ends, and when more bytes must be awaited.
#![tactic(auto)]

pub mod binary;
pub mod checksum;
pub mod pair;
pub mod sentence;
pub mod verdict;
