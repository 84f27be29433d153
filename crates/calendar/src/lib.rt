// The Gregorian calendar: the days of a month, the date of a day, and the text of a moment.
#![tactic(auto)]

pub mod dates;
pub mod stamps;
