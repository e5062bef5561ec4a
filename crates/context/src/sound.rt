// A context whose record keeps its bounds.
ghost use Rattle.std.specs.Prelude.{◌≡◌, ◌+◌, ◌≤◌, true};
ghost use Rattle.address.specs.Addresses.{capacity_of};
ghost use Rattle.frame.specs.Markers.{sof_of, lawful_word};

use super::record::ContextRecord;
use moves::Counts;

// A context that is driven: its stack, its number in faults, and the counts of words moved.
#[derive(Clone, Copy, Debug, PartialEq, Eq)]
pub struct Context {
    pub stack: ContextRecord,
    pub number: u64,
    pub counts: Counts,
    ghost region: { stack.start + stack.size ≤ 65536 },
    ghost marked: { lawful_word stack.marker ≡ true },
    ghost previously: { lawful_word stack.previous ≡ true },
    ghost saving: { lawful_word stack.saved ≡ true },
    ghost held: { stack.base + sof_of stack.marker ≤ capacity_of stack.size },
}
