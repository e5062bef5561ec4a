// Asking: is every word that a move needs open? The lowest shut one is told, before anything moves. Asking counts nothing.
ghost use Rattle.std.specs.Prelude.{◌≡◌, ◌-◌, length};
ghost use Rattle.address.specs.AddressLaws.{Aligned};
ghost use Rattle.moves.specs.declared.state.Movement.TheVariants.{Spill, Fill, Lowering};
ghost use Rattle.moves.specs.Told.{Told, Lowest, SpillNeeds, FillNeeds, LowerNeeds};
ghost use Rattle.moves.specs.Steps.{asked_at};
ghost use Rattle.moves.specs.Fills.{fill_answer};
ghost use Rattle.moves.specs.Lowers.{lower_answer};
ghost use Rattle.moves.specs.Asks.{spills_asked, fills_asked};

use super::at_place;
use super::state::{Cursor, MoveFault, Movement, Place};
use address::{address_of, collection_of, positions_below};
use store::Store;

// One word: the store's own fault where it is shut or missing.
fn ask<S: Store>(store: &S, word: u64, place: Place) -> Result<(), MoveFault>
    ensures { result ≡ asked_at (S.meaning store.now) word place }
{
    if store.is_open(word) {
        return Ok(());
    }
    let _ = at_place(store.read(word), place)?;
    Ok(())
}

// The runs here, of fills and of spills stay loops of their own, each over its own step: a loop that is passed its step would lose
// what a step writes, and the questions are no shorter so.
impl Cursor {
    // The words that spills until `end` write.
    pub fn ask_spills<S: Store>(&self, store: &S, end: u64) -> Result<(), MoveFault>
        ensures answer { result ≡ spills_asked (S.meaning store.now) self.now.context
            self.now.start (end - self.now.bspstore) self.now.bspstore }
        ensures told { Told (S.meaning store.now) Spill self.now.context (SpillNeeds self.now.start self.now.bspstore end) result }
        ensures lowest { Lowest (S.meaning store.now) (SpillNeeds self.now.start self.now.bspstore end) result }
    {
        for word in self.bspstore..end {
            let position = positions_below(self.start, word);
            ask(store, word, self.place(Movement::Spill, position))?;
        }
        Ok(())
    }

    // The words that a fill of one position reads.
    fn ask_fill<S: Store>(&self, store: &S, position: u32) -> Result<(), MoveFault>
        ensures { result ≡ fill_answer (S.meaning store.now) self.now.context self.now position }
    {
        let place = self.place(Movement::Fill, u64::from(position));
        let word = address_of(self.start, position);
        ask(store, word, place)?;
        if self.is_near(position) {
            return Ok(());
        }
        ask(store, collection_of(word), place)
    }

    // The words that fills of the positions from `low` to `high` − 1 read.
    pub fn ask_fills<S: Store>(&self, store: &S, low: u32, high: u32) -> Result<(), MoveFault>
        ensures answer { result ≡ fills_asked (S.meaning store.now) self.now.context self.now (high - low) low }
        ensures told { Told (S.meaning store.now) Fill self.now.context (FillNeeds self.now low high) result }
        ensures lowest { Aligned (length (S.meaning store.now).words) → Lowest
            (S.meaning store.now) (FillNeeds self.now low high) result }
    {
        for position in low..high {
            self.ask_fill(store, position)?;
        }
        Ok(())
    }

    // The word that a lowering to `word` reads, if any.
    pub fn ask_lowering<S: Store>(&self, store: &S, word: u64) -> Result<(), MoveFault>
        ensures answer { result ≡ lower_answer (S.meaning store.now) self.now.context self.now word }
        ensures told { Told (S.meaning store.now) Lowering self.now.context (LowerNeeds self.now word) result }
    {
        if !self.reads_collection(word) {
            return Ok(());
        }
        let position = positions_below(self.start, word);
        ask(
            store,
            collection_of(word),
            self.place(Movement::Lowering, position),
        )
    }
}
