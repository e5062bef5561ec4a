// One memory of the host as a store. Its doors do not move, so every page is open.
ghost use Rattle.std.specs.Prelude.{◌≡◌, ◌/◌, ◌^◌, ◌<◌, true, length};
ghost use Rattle.std.proofs.lemmas.List.{length-replicate};
ghost use Rattle.store.specs.Frames.{flat_of};
ghost use Rattle.store.specs.Rules.{write_of, written, door_of, door_set};

use crate::{Cause, Store, StoreFault};

#[derive(Drop)]
pub struct FlatStore<'a> {
    words: &'a mut [u64],
    ghost small: { length words.now < 2 ^ 64 },
}

impl<'a> FlatStore<'a> {
    pub fn new(words: &'a mut [u64]) -> FlatStore<'a>
        ensures lent { result.words.ghost_name ≡ words.entry.ghost_name }
        ensures same { result.words.now ≡ words.old }
    {
        FlatStore { words }
    }
}

impl<'a> Store for FlatStore<'a> {
    ghost meaning = { λ s. flat_of s.words.now };

    ghost bounded = { λ s. s.small };

    ghost flagged = { λ s. length-replicate (length s.words.now / 64) true };

    fn len(&self) -> u64 {
        self.words.len() as u64
    }

    fn read(&self, w: u64) -> Result<u64, StoreFault> {
        self.words
            .get(w as usize)
            .copied()
            .ok_or(StoreFault::new(Cause::Beyond, w))
    }

    fn is_open(&self, w: u64) -> bool {
        w < self.len()
    }

    fn write(&mut self, w: u64, v: u64) -> Result<(), StoreFault>
        ensures answer { result ≡ write_of (flat_of self.old.words.now) w }
        ensures after { flat_of self.new.words.now ≡ written (flat_of self.old.words.now) w v }
        ensures lent { self.new.words.ghost_name ≡ self.old.words.ghost_name }
    {
        if !self.is_open(w) {
            return Err(StoreFault::new(Cause::Beyond, w));
        }
        // By index: after `get_mut` of a slice a proof knows no element.
        self.words[w as usize] = v;
        Ok(())
    }

    fn set_door(&mut self, page: u64, open: bool) -> Result<(), Cause>
        ensures answer { result ≡ door_of (flat_of self.old.words.now) page }
        ensures after { flat_of self.new.words.now ≡ door_set (flat_of self.old.words.now) page «open» }
        ensures lent { self.new.words.ghost_name ≡ self.old.words.ghost_name }
    {
        Err(Cause::of_fixed_door(self.len(), page))
    }
}
