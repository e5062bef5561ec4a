// The instructions and their answers (docs/RULES.md, "Instructions").
ghost use Rattle.std.specs.Prelude.{◌≡◌};
ghost use Rattle.engine.specs.Running.{shown_as};

use register::{Kind, Slot};

// Operands are numbers as a line has them, the NaT bit and the mode too: their range is asked in one place.
#[derive(Clone, Copy, Debug, PartialEq, Eq)]
pub enum Instruction {
    Begin { context: u64, start: u64, size: u64 },
    Resume { context: u64 },
    Retire { context: u64 },
    Alloc { sof: u64, sol: u64, sor: u64 },
    Call,
    Return,
    Cover,
    Write { register: u64, word: u64, nat: u64 },
    Copy { target: u64, source: u64 },
    Add { target: u64, left: u64, right: u64 },
    Read { register: u64 },
    Rotate,
    ResetRotation,
    Previous,
    SetPrevious { word: u64 },
    Restore,
    Flush,
    EarlySpill,
    EarlyFill,
    Load { words: u64 },
    Park,
    SetMode { mode: u64 },
    State,
    Counts,
}

#[derive(Clone, Copy, Debug, PartialEq, Eq)]
pub enum Answer {
    Done,
    // A marker's word.
    Marker(u64),
    // A register's image and NaT bit.
    Register {
        image: u64,
        nat: bool,
    },
    // BSP and RNAT.
    Flushed {
        bsp: u64,
        rnat: u64,
    },
    // State, context, base, marker word and BSP; all 0 in idle. The state by its number, and no `State`: whoever prints an answer
    // may have any number there.
    State {
        state: u64,
        context: u64,
        base: u64,
        marker: u64,
        bsp: u64,
    },
    // Words written and words read.
    Counts {
        written: u64,
        read: u64,
    },
}

// The answer of a read.
pub(crate) fn shown<K: Kind>(register: Slot<K>) -> Answer
    ensures { result ≡ shown_as K.image_of register }
{
    Answer::Register {
        image: register.content.image(),
        nat: register.nat,
    }
}
