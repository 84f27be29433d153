// Formats of records: which format claims a record, its verdict, and its parts.
#![tactic(auto)]

pub mod defect;
pub mod format;
pub mod items;
pub mod pair;
mod parts;
pub mod sentence;
pub mod text;
