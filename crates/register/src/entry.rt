// What a register holds of a record, and what an intake counts.

// A record of the stream: how many bytes stand before it, its length, kind and series, its verdict (0 where it is accepted), and
// the place of its fault (0 where there is none). Kind, series, verdict and fault are numbers: any bytes of an archive are entries, and any format
// may tell numbers of its own.
#[derive(Clone, Copy, PartialEq, Eq, Debug, Default)]
pub struct Entry {
    pub place: u64,
    pub len: u16,
    pub kind: u8,
    pub series: u8,
    pub verdict: u16,
    pub fault: u16,
}

// The bytes accepted, and how many of them are registered, passed over and waiting; the number of records; whether the stream is open.
#[derive(Clone, Copy, PartialEq, Eq, Debug)]
pub struct Totals {
    pub accepted: u64,
    pub registered: u64,
    pub passed: u64,
    pub waiting: u64,
    pub records: u64,
    pub open: bool,
}
