// What the moves keep: where the next spill goes, its NaT bits, and how many words went each way.
ghost use Rattle.std.specs.Prelude.{◌≡◌};
ghost use Rattle.moves.specs.Steps.{place_of};

use store::StoreFault;

// Words written and words read by moves; each stops at 2^64 − 1.
#[derive(Clone, Copy, Debug, Default, PartialEq, Eq)]
pub struct Counts {
    pub written: u64,
    pub read: u64,
}

// Where the moves of a context stand: the next word to spill (BSPSTORE) in a region from `start`, and RNAT: the NaT bits
// of the registers in BSPSTORE's group below it. The context's number is told in faults.
#[derive(Clone, Copy, Debug, PartialEq, Eq)]
pub struct Cursor {
    pub context: u64,
    pub start: u32,
    pub bspstore: u64,
    pub rnat: u64,
    pub counts: Counts,
}

#[derive(Clone, Copy, Debug, PartialEq, Eq)]
pub enum Movement {
    Spill,
    Fill,
    Lowering,
}

// Which move of which context stood at which position: for a spill the next position to be stored, for a fill the
// position filled, for a lowering the position that BSPSTORE is lowered to.
#[derive(Clone, Copy, Debug, PartialEq, Eq)]
pub struct Place {
    pub movement: Movement,
    pub context: u64,
    pub position: u64,
}

// The store's fault whole, and the move that met it.
#[derive(Clone, Copy, Debug, PartialEq, Eq)]
pub struct MoveFault {
    pub fault: StoreFault,
    pub place: Place,
}

impl Cursor {
    // Where a move of this context stands that meets a fault.
    pub(crate) fn place(&self, movement: Movement, position: u64) -> Place
        ensures { result ≡ place_of self.now movement position }
    {
        Place {
            movement,
            context: self.context,
            position,
        }
    }
}
