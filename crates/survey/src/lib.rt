// What the programs that read a survey share: its framings and formats, the feeding of standard input to an intake, and what they print.
#![tactic(auto)]

pub mod feeding;
pub mod printing;
pub mod setup;
