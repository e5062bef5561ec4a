// Lowering BSPSTORE: RNAT becomes the NaT bits below it in its new group.
ghost use Rattle.std.specs.Prelude.{◌≡◌, if◌then◌else◌};
ghost use Rattle.address.specs.Addresses.{collection_of};
ghost use Rattle.store.specs.Rules.{is_open, write_of};
ghost use Rattle.moves.specs.Steps.{read_more};
ghost use Rattle.moves.specs.Fills.{far_bits};
ghost use Rattle.moves.specs.Lowers.{lower_reads, lower_open, lower_answer, lowered_to, lowered};

use super::at_place;
use super::state::{Cursor, MoveFault, Movement};
use address::{collection_of, group_of, nats_below, positions_below};
use store::{Store, StoreFault};

impl Cursor {
    // Does a lowering to `word` read a collection: into another group, and not to the group's first word.
    pub(crate) fn reads_collection(&self, word: u64) -> bool
        ensures { result ≡ lower_reads self.now word }
    {
        group_of(word) != group_of(self.bspstore) && word % 64 != 0
    }

    // RNAT from the collection of the new group.
    fn lower_far<S: Store>(&mut self, store: &S, word: u64) -> Result<(), StoreFault>
        ensures answer { result ≡ write_of (S.meaning store.now) (collection_of word) }
        ensures cursor { self.new ≡ (if is_open (S.meaning store.now) (collection_of word) then
            lowered_to word (far_bits (S.meaning store.now) word) (read_more 1 self.old) else self.old) }
    {
        let collection = store.read(collection_of(word))?;
        self.counts.read = self.counts.read.saturating_add(1);
        self.rnat = nats_below(collection, word);
        self.bspstore = word;
        Ok(())
    }

    // RNAT keeps its bits below the new word, which are none at a group's first word.
    fn lower_near(&mut self, word: u64)
        ensures { self.new ≡ lowered_to word self.old.rnat self.old }
    {
        self.rnat = nats_below(self.rnat, word);
        self.bspstore = word;
    }

    // Lowers BSPSTORE to `word`.
    pub fn lower<S: Store>(&mut self, store: &S, word: u64) -> Result<(), MoveFault>
        ensures answer { result ≡ lower_answer (S.meaning store.now) self.old.context self.old word }
        ensures cursor { self.new ≡ (if lower_open self.old (S.meaning store.now) word then
            lowered (S.meaning store.now) self.old word else self.old) }
    {
        if self.reads_collection(word) {
            let place = self.place(Movement::Lowering, positions_below(self.start, word));
            return at_place(self.lower_far(store, word), place);
        }
        self.lower_near(word);
        Ok(())
    }
}
