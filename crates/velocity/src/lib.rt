// Formats of velocity records: fields one behind the other, then arrays up to the end of the data; and what is taken from them.
#![tactic(auto)]

mod clock;
pub mod df3;
pub mod df7;
mod layout;
pub mod percent;
pub mod profile;
