// The engine by its numbers.
ghost use Rattle.std.specs.Prelude.{◌≡◌};
ghost use Rattle.engine.specs.Modes.{state_number, mode_of};

use context::{ContextRecord, Status};
use moves::Counts;

#[derive(Clone, Copy, Debug, PartialEq, Eq)]
pub enum State {
    Idle,
    Running,
    Covered,
    Flushed,
}

// The number by which a state is told.
impl From<State> for u64 {
    ghost from_gives = { λ state n. n ≡ state_number state };

    fn from(state: State) -> u64 {
        match state {
            State::Idle => 0,
            State::Running => 1,
            State::Covered => 2,
            State::Flushed => 3,
        }
    }
}

// Which moves the engine makes early.
#[derive(Clone, Copy, Debug, PartialEq, Eq)]
pub struct Mode {
    pub spills: bool,
    pub fills: bool,
}

// Bit 0 of a mode's number allows early spills, bit 1 early fills.
impl From<u64> for Mode {
    ghost from_gives = { λ bits mode. mode ≡ mode_of bits };

    fn from(bits: u64) -> Mode {
        Mode {
            spills: bits % 2 == 1,
            fills: bits / 2 % 2 == 1,
        }
    }
}

// The eight contexts, plain records with markers as their words: a machine is easy to copy and to compare.
#[derive(Clone, Copy, Debug, PartialEq, Eq)]
pub struct ContextTable {
    pub entries: [ContextRecord; 8],
}

#[derive(Clone, Copy, Debug, PartialEq, Eq)]
pub struct Machine {
    // Slots of the file, and words of the store, at making.
    pub slots: u64,
    pub words: u64,
    pub state: State,
    // The entry of the context that is driven; of no meaning in idle. Beside the state and not in it: three states of four have
    // one, and a machine in idle keeps the last.
    pub current: usize,
    pub table: ContextTable,
    pub mode: Mode,
    pub counts: Counts,
}

// An entry that no context has.
pub(crate) const EMPTY: ContextRecord = ContextRecord {
    status: Status::Empty,
    start: 0,
    size: 0,
    base: 0,
    marker: 0,
    previous: 0,
    saved: 0,
    lo: 0,
    bspstore: 0,
    rnat: 0,
};
