// The intake: the bytes that wait, in a fixed buffer, and what was counted.
ghost use Rattle.std.specs.Prelude.{◌+◌, ◌-◌, ◌≤◌};

// How many bytes may wait, and fit the buffer.
pub(crate) const MOST_WAITING: usize = 8192;

pub(crate) const BUFFER: usize = 16384;

// The memory is fixed, and no call allocates. The bytes from `start` to `end` wait. The buffer is twice as long as what may wait, so that no byte is moved to its front twice:
// the cost of a byte is constant over its life.
#[derive(Drop)]
pub struct Intake {
    pub(crate) bytes: [u8; BUFFER],
    pub(crate) start: usize,
    pub(crate) end: usize,
    pub(crate) accepted: u64,
    pub(crate) registered: u64,
    pub(crate) records: u64,
    pub(crate) closed: bool,
    ghost order: { (start ≤ end) × (end ≤ 16384) × (end ≤ start + 8192) },
    ghost counts: { (registered + (end - start) ≤ accepted) × (accepted ≤ 1099511627776) × (records ≤ registered) },
}
