// The intake of a stream: bytes are delivered, records are taken into a register, and the law says that nothing is lost or made up.
#![tactic(auto)]

pub mod answers;
pub mod audit;
pub mod calls;
pub mod feeding;
pub mod intake;
pub mod runs;
pub mod takes;
