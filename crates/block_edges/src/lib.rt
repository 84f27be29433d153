// The edges of packing and unpacking, tried.
#![tactic(auto)]

#[cfg(test)]
mod tests;
