// Two values as one.

// Two framings or two formats: the first is asked before the second.
#[derive(Clone, Copy, Drop, Debug)]
pub struct Pair<A, B> {
    pub first: A,
    pub second: B,
}
