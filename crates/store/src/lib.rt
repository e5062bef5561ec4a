// Backing stores: what one means, the calls that each has, and two of them, flat and paged.
#![tactic(auto)]

ghost use Rattle.std.specs.Prelude.{◌≡◌, ◌/◌, ◌^◌, ◌<◌, if◌then◌else◌, length, nat_lt};
ghost use Rattle.store.specs.Meaning.{Meaning};
ghost use Rattle.store.specs.Rules.{is_open, read_of, write_of, written, door_of, door_set};

mod alike;
mod flat;
mod frames;
mod paged;

pub use alike::{door_both, read_both, write_both};
pub use flat::FlatStore;
pub use frames::{HostRefused, check_frames};
pub use paged::PagedStore;

// Why a store refuses: no such word or page, a shut page, or doors that do not move.
#[derive(Clone, Copy, Debug, PartialEq, Eq, Hash)]
pub enum Cause {
    Beyond,
    Shut,
    Fixed,
}

impl Cause {
    // Why a store of `words` words whose doors do not move refuses to open or shut page `page`.
    pub fn of_fixed_door(words: u64, page: u64) -> Cause
        ensures { result ≡ (if nat_lt page (words / 64) then Cause.Fixed else Cause.Beyond) }
    {
        if page < words / 64 {
            Cause::Fixed
        } else {
            Cause::Beyond
        }
    }
}

// A word that was not moved, and why.
#[derive(Clone, Copy, Debug, PartialEq, Eq, Hash)]
pub struct StoreFault {
    pub cause: Cause,
    pub word: u64,
}

impl StoreFault {
    pub fn new(cause: Cause, word: u64) -> StoreFault
        ensures { result ≡ record { cause = cause; word = word } }
    {
        StoreFault { cause, word }
    }
}

// A store of 64-bit words in pages of 64, each behind a door. A word and its value, a page and its door stay two parameters: each
// call has its own. That the memory under a store is lent on (`lent` below), each call that alters it says for itself.
pub trait Store {
    ghost meaning: { Self → Meaning };

    // What each store proves: its words fit a number, and there is one flag for each page. Above the functions, so that a
    // clause can name both.
    ghost bounded: { (s : Self) → length (meaning s).words < 2 ^ 64 };

    ghost flagged: { (s : Self) → length (meaning s).flags ≡ length (meaning s).words / 64 };

    fn len(&self) -> u64
        ensures { result ≡ length (meaning self.now).words };

    fn read(&self, w: u64) -> Result<u64, StoreFault>
        ensures { result ≡ read_of (meaning self.now) w };

    fn is_open(&self, w: u64) -> bool
        ensures { result ≡ is_open (meaning self.now) w };

    fn write(&mut self, w: u64, v: u64) -> Result<(), StoreFault>
        ensures answer { result ≡ write_of (meaning self.old) w }
        ensures after { meaning self.new ≡ written (meaning self.old) w v };

    fn set_door(&mut self, page: u64, open: bool) -> Result<(), Cause>
        ensures answer { result ≡ door_of (meaning self.old) page }
        ensures after { meaning self.new ≡ door_set (meaning self.old) page «open» };
}
