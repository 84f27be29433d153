// What the layers share: a list over a table that the caller hands in, pairs, and refusals.
#![tactic(auto)]

pub mod list;
pub mod lists;
pub mod pair;
pub mod refusal;
