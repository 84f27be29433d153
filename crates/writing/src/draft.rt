// A binary frame in the making, over a caller's space.
ghost use Rattle.std.specs.Prelude.{◌-◌, ◌≤◌, length};

// No call allocates: the data of a draft stand in the caller's space behind the ten bytes that the header will take: `len` of them so far. A draft is not `Drop`: it
// ends only in `seal` or `scrap`.
pub struct Draft<'a> {
    pub(crate) space: &'a mut [u8],
    pub(crate) series: u8,
    pub(crate) len: usize,
    ghost within: { (len ≤ length space.now - 10) × (len ≤ 8182) },
}
