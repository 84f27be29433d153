// Binary frames written: a draft over a caller's space, which must be sealed or scrapped, and records written again from their parts.
#![tactic(auto)]

pub mod again;
pub mod draft;
pub mod drafts;
pub mod tag;
