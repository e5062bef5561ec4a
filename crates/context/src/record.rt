// One context by its numbers (docs/RULES.md, "Contexts").
ghost use Rattle.std.specs.Prelude.{◌≡◌};
ghost use Rattle.context.specs.Records.{bsp_of, stored_of, cursor_of};

use address::{address_of, positions_below};
use moves::{Counts, Cursor};

#[derive(Clone, Copy, Debug, PartialEq, Eq)]
pub enum Status {
    Empty,
    Current,
    Parked,
}

// A region of `size` words from `start`, the stack in it, and what of the stack the file holds: the positions from
// `lo` on. The markers are kept as their words.
#[derive(Clone, Copy, Debug, PartialEq, Eq)]
pub struct ContextRecord {
    pub status: Status,
    pub start: u32,
    pub size: u32,
    pub base: u32,
    pub marker: u64,
    pub previous: u64,
    pub saved: u64,
    pub lo: u32,
    pub bspstore: u64,
    pub rnat: u64,
}

impl ContextRecord {
    // The address of base.
    pub fn bsp(&self) -> u64
        ensures { result ≡ bsp_of self.now }
    {
        address_of(self.start, self.base)
    }

    // Where the moves stand of the context of this number.
    pub fn cursor(&self, context: u64, counts: Counts) -> Cursor
        ensures { result ≡ cursor_of context self.now counts }
    {
        Cursor {
            context,
            start: self.start,
            bspstore: self.bspstore,
            rnat: self.rnat,
            counts,
        }
    }

    // The next position to be stored: all below it are in the backing store.
    pub fn stored(&self) -> u64
        ensures { result ≡ stored_of self.now }
    {
        positions_below(self.start, self.bspstore)
    }
}
