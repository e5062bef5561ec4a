// Spills: from the file to the backing store, upward, word by word.
ghost use Rattle.std.specs.Prelude.{◌≡◌, ◌+◌, ◌-◌, ◌^◌, ◌<◌, if◌then◌else◌};
ghost use Rattle.store.specs.Rules.{is_open, write_of, written};
ghost use Rattle.moves.specs.Spills.{past_word, past_collection, past_register, spill_answer, spill_value, spill_past, spill_run};
ghost use Rattle.moves.specs.Stored.{SpillShows};

use super::at_place;
use super::state::{Cursor, MoveFault, Movement};
use address::{is_collection, positions_below, with_nat};
use register::{Kind, Slot, register_at};
use store::{Store, StoreFault};

impl Cursor {
    // Past the word just written, with the new RNAT.
    fn advance(&mut self, rnat: u64)
        requires { self.old.bspstore + 1 < 2 ^ 64 }
        ensures { self.new ≡ past_word rnat self.old }
    {
        self.rnat = rnat;
        self.bspstore += 1;
        self.counts.written = self.counts.written.saturating_add(1);
    }

    // Writes RNAT to the collection at BSPSTORE, and clears it.
    fn spill_collection<S: Store>(&mut self, store: &mut S) -> Result<(), StoreFault>
        ensures answer { result ≡ write_of (S.meaning store.old) self.old.bspstore }
        ensures words { S.meaning store.new ≡ written (S.meaning store.old) self.old.bspstore self.old.rnat }
        ensures cursor { self.new ≡ (if is_open (S.meaning store.old) self.old.bspstore then past_collection
            self.old else self.old) }
    {
        store.write(self.bspstore, self.rnat)?;
        self.advance(0);
        Ok(())
    }

    // Writes the image of the next position to BSPSTORE, and puts its NaT bit into RNAT.
    fn spill_register<K: Kind, S: Store>(
        &mut self,
        register: Slot<K>,
        store: &mut S,
    ) -> Result<(), StoreFault>
        ensures answer { result ≡ write_of (S.meaning store.old) self.old.bspstore }
        ensures words { S.meaning store.new
            ≡ written (S.meaning store.old) self.old.bspstore (K.image_of register.content) }
        ensures cursor { self.new ≡ (if is_open (S.meaning store.old) self.old.bspstore then past_register
            register.nat self.old else self.old) }
    {
        store.write(self.bspstore, register.content.image())?;
        self.advance(with_nat(self.rnat, self.bspstore, register.nat));
        Ok(())
    }

    // One spill step: a collection where BSPSTORE stands at one, otherwise the next register.
    pub fn spill_step<K: Kind, S: Store>(
        &mut self,
        slots: &[Slot<K>],
        store: &mut S,
    ) -> Result<(), MoveFault>
        ensures answer { result ≡ spill_answer (S.meaning store.old) self.old.context self.old }
        ensures words { S.meaning store.new ≡ written (S.meaning store.old) self.old.bspstore
            (spill_value K.zero_content K.image_of slots.now self.old) }
        ensures cursor { self.new ≡ (if is_open (S.meaning store.old) self.old.bspstore then
            spill_past K.zero_content slots.now self.old else self.old) }
    {
        let position = positions_below(self.start, self.bspstore);
        let place = self.place(Movement::Spill, position);
        if is_collection(self.bspstore) {
            at_place(self.spill_collection(store), place)
        } else {
            at_place(
                self.spill_register(register_at(slots, position), store),
                place,
            )
        }
    }

    // Spill steps until BSPSTORE is `end`, in order; at a fault the whole steps before it stand. A loop of its own: `asking`.
    pub fn spill_until<K: Kind, S: Store>(
        &mut self,
        slots: &[Slot<K>],
        store: &mut S,
        end: u64,
    ) -> Result<(), MoveFault>
        ensures answer { result ≡ (spill_run K.zero_content K.image_of slots.now self.old.context
            (end - self.old.bspstore) self.old (S.meaning store.old)).answer }
        ensures words { S.meaning store.new ≡ (spill_run K.zero_content K.image_of slots.now self.old.context
            (end - self.old.bspstore) self.old (S.meaning store.old)).meaning }
        ensures cursor { self.new ≡ (spill_run K.zero_content K.image_of slots.now self.old.context
            (end - self.old.bspstore) self.old (S.meaning store.old)).cursor }
        ensures closed { SpillShows K.zero_content K.image_of slots.now self.old.context end self.old
            (S.meaning store.old) result self.new (S.meaning store.new) }
    {
        for _word in self.bspstore..end {
            self.spill_step(slots, store)?;
        }
        Ok(())
    }
}
