// The edges of the calls, tried.
#![tactic(auto)]

#[cfg(test)]
mod drafts;
#[cfg(test)]
mod tests;
