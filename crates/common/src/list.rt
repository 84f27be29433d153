// A list over a borrowed table, for any kind of item.
ghost use Rattle.std.specs.Prelude.{◌≤◌, length};

// The first `len` items of the table are the list's: the table is the caller's, so that no call allocates.
#[derive(Drop)]
pub struct List<'a, T> {
    pub(crate) table: &'a mut [T],
    pub(crate) len: usize,
    ghost within: { len ≤ length table.now },
}
