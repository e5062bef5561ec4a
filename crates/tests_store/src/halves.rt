// Words kept as two halves of 32 bits each. The doors do not move.
ghost use Rattle.std.specs.Prelude.{◌≡◌, replicate, IfOk};
ghost use Rattle.tests_store.specs.Halves.{word_of, halved_of, halves_bounded, halves_flagged};

use std::alloc::{AllocError, Global};
use store::{Cause, Store, StoreFault};

// The number of values of one half.
const HALF: u64 = 4294967296;

#[derive(Clone, Copy, Debug, PartialEq, Eq, Hash)]
pub struct Halves {
    pub high: u32,
    pub low: u32,
}

impl From<Halves> for u64 {
    ghost from_gives = { λ h word. word ≡ word_of h };

    fn from(halves: Halves) -> u64 {
        u64::from(halves.high) * HALF + u64::from(halves.low)
    }
}

impl From<u64> for Halves {
    ghost from_gives = { λ word h. word_of h ≡ word };

    fn from(word: u64) -> Halves {
        Halves {
            high: (word / HALF) as u32,
            low: (word % HALF) as u32,
        }
    }
}

#[derive(Drop)]
pub struct HalfStore {
    halves: Vec<Halves>,
}

impl HalfStore {
    // A store of `length` words, all zero.
    pub fn new(heap: Global, length: usize) -> Result<HalfStore, AllocError>
        ensures { IfOk result (λ s. s.halves.items ≡ replicate length (record { high = 0; low = 0 })) }
    {
        let halves = vec![in heap; Halves { high: 0, low: 0 }; length]?;
        Ok(HalfStore { halves })
    }
}

impl Store for HalfStore {
    ghost meaning = { λ s. halved_of s.halves.items };

    ghost bounded = { λ s. halves_bounded s.halves };

    ghost flagged = { λ s. halves_flagged s.halves.items };

    fn len(&self) -> u64 {
        self.halves.len() as u64
    }

    fn read(&self, w: u64) -> Result<u64, StoreFault> {
        self.halves
            .get(w as usize)
            .map(|halves| u64::from(*halves))
            .ok_or(StoreFault::new(Cause::Beyond, w))
    }

    fn is_open(&self, w: u64) -> bool {
        w < self.len()
    }

    #[tactic(auto, using(crate::proofs::Words::one_word))]
    fn write(&mut self, w: u64, v: u64) -> Result<(), StoreFault> {
        let halves = self
            .halves
            .get_mut(w as usize)
            .ok_or(StoreFault::new(Cause::Beyond, w))?;
        *halves = Halves::from(v);
        Ok(())
    }

    fn set_door(&mut self, page: u64, _open: bool) -> Result<(), Cause> {
        Err(Cause::of_fixed_door(self.len(), page))
    }
}
