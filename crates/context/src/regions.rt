// Regions of the backing store.
ghost use Rattle.std.specs.Prelude.{◌+◌, ◌≤◌};

// The longest store that an engine takes.
pub const LONGEST_STORE: u64 = 65536;

// Words from `start`, both multiples of 64, within the longest store.
#[derive(Clone, Copy, Debug, PartialEq, Eq)]
pub struct Region {
    pub start: u32,
    pub size: u32,
    ghost within: { start + size ≤ 65536 },
}
