// Registers that are spilled, cleared and filled again come back.
ghost use Rattle.std.specs.Prelude.{◌≡◌, ◌-◌, length};
ghost use Rattle.moves.specs.Spills.{spill_run};
ghost use Rattle.moves.specs.RoundTrips.{refill_run, round_trip, Ready, ComesBack};

use super::state::{Cursor, MoveFault};
use address::positions_below;
use register::{Kind, Slot, clear_registers};
use store::Store;

impl Cursor {
    // Clears the positions from `low` to `high` − 1, and fills them.
    fn refill<K: Kind, S: Store>(
        &mut self,
        slots: &mut [Slot<K>],
        store: &S,
        low: u32,
        high: u32,
    ) -> Result<(), MoveFault>
        ensures answer { result ≡ (refill_run K.zero_content K.content_of
            (S.meaning store.now) self.old.context (high - low) low self.old slots.old).answer }
        ensures file { slots.new ≡ (refill_run K.zero_content K.content_of
            (S.meaning store.now) self.old.context (high - low) low self.old slots.old).file }
        ensures cursor { self.new ≡ (refill_run K.zero_content K.content_of
            (S.meaning store.now) self.old.context (high - low) low self.old slots.old).cursor }
    {
        clear_registers(slots, u64::from(low), u64::from(high));
        self.fill_run(slots, store, low, high)
    }

    // Spills the words from BSPSTORE to `end` − 1, clears the registers that were among them, and fills them again. Over any
    // store whose words are open there, for every kind and at every alignment, the same registers come back.
    pub fn spill_and_refill<K: Kind, S: Store>(
        &mut self,
        slots: &mut [Slot<K>],
        store: &mut S,
        end: u32,
    ) -> Result<(), MoveFault>
        ensures answer { result ≡ (round_trip K.zero_content K.image_of K.content_of self.old.context end self.old
            (S.meaning store.old) slots.old).answer }
        ensures file { slots.new ≡ (round_trip K.zero_content K.image_of K.content_of self.old.context end self.old
            (S.meaning store.old) slots.old).file }
        ensures cursor { self.new ≡ (round_trip K.zero_content K.image_of K.content_of self.old.context end self.old
            (S.meaning store.old) slots.old).cursor }
        ensures words { S.meaning store.new ≡ (spill_run K.zero_content K.image_of slots.old self.old.context
            (end - self.old.bspstore) self.old (S.meaning store.old)).meaning }
        ensures back { Ready (length slots.old) end self.old (S.meaning store.old)
            → ComesBack K.zero_content end self.old (S.meaning store.old) slots.old result self.new (S.meaning store.new) slots.new }
    {
        let end = u64::from(end);
        let low = positions_below(self.start, self.bspstore.min(end)) as u32;
        let high = positions_below(self.start, end) as u32;
        self.spill_until(slots, store, end)?;
        self.refill(slots, store, low, high)
    }
}
