// Fills: from the backing store to the file, upward, register by register.
ghost use Rattle.std.specs.Prelude.{◌≡◌, ◌-◌, if◌then◌else◌};
ghost use Rattle.register.specs.Slots.{register_put};
ghost use Rattle.moves.specs.Steps.{read_more};
ghost use Rattle.moves.specs.Fills.{is_near, nats_read, fill_open, fill_fault, fill_answer, fill_reads, filled, fill_run};
ghost use Rattle.moves.specs.Refilled.{FillShows};

use super::at_place;
use super::state::{Cursor, MoveFault, Movement};
use address::{address_of, collection_of, group_of, nat_bit};
use register::{Kind, Slot, put_register};
use store::{Store, StoreFault};

impl Cursor {
    // Does a position's word lie in BSPSTORE's group?
    pub(crate) fn is_near(&self, position: u32) -> bool
        ensures { result ≡ is_near self.now position }
    {
        group_of(address_of(self.start, position)) == group_of(self.bspstore)
    }

    // The bits that hold a position's NaT bit: RNAT where its word lies in BSPSTORE's group, otherwise the group's collection.
    fn nats_of<S: Store>(&self, store: &S, position: u32) -> Result<u64, StoreFault>
        ensures { result ≡ nats_read self.now (S.meaning store.now) position }
    {
        if self.is_near(position) {
            Ok(self.rnat)
        } else {
            store.read(collection_of(address_of(self.start, position)))
        }
    }

    // How many words a fill of one position reads.
    fn reads_of(&self, position: u32) -> u64
        ensures { result ≡ fill_reads self.now position }
    {
        if self.is_near(position) { 1 } else { 2 }
    }

    // A register from its word, its NaT bit from the bits that hold it.
    fn fill_register<K: Kind, S: Store>(
        &mut self,
        slots: &mut [Slot<K>],
        store: &S,
        position: u32,
    ) -> Result<(), StoreFault>
        ensures answer { result ≡ fill_fault self.old (S.meaning store.now) position }
        ensures file { slots.new ≡ (if fill_open self.old (S.meaning store.now) position then
            register_put slots.old position (filled K.content_of self.old (S.meaning store.now) position) else slots.old) }
        ensures cursor { self.new ≡ (if fill_open self.old (S.meaning store.now) position then
            read_more (fill_reads self.old position) self.old else self.old) }
    {
        let word = address_of(self.start, position);
        let image = store.read(word)?;
        let nats = self.nats_of(store, position)?;
        self.counts.read = self.counts.read.saturating_add(self.reads_of(position));
        put_register(
            slots,
            u64::from(position),
            Slot {
                content: K::of_word(image),
                nat: nat_bit(nats, word),
            },
        );
        Ok(())
    }

    // Fills one position.
    pub fn fill<K: Kind, S: Store>(
        &mut self,
        slots: &mut [Slot<K>],
        store: &S,
        position: u32,
    ) -> Result<(), MoveFault>
        ensures answer { result ≡ fill_answer (S.meaning store.now) self.old.context self.old position }
        ensures file { slots.new ≡ (if fill_open self.old (S.meaning store.now) position then
            register_put slots.old position (filled K.content_of self.old (S.meaning store.now) position) else slots.old) }
        ensures cursor { self.new ≡ (if fill_open self.old (S.meaning store.now) position then
            read_more (fill_reads self.old position) self.old else self.old) }
    {
        let place = self.place(Movement::Fill, u64::from(position));
        at_place(self.fill_register(slots, store, position), place)
    }

    // Fills the positions from `low` to `high` − 1, upward; at a fault the whole fills before it stand. A loop of its own: `asking`.
    pub fn fill_run<K: Kind, S: Store>(
        &mut self,
        slots: &mut [Slot<K>],
        store: &S,
        low: u32,
        high: u32,
    ) -> Result<(), MoveFault>
        ensures answer { result ≡ (fill_run K.content_of (S.meaning store.now) self.old.context (high - low) low
            self.old slots.old).answer }
        ensures file { slots.new ≡ (fill_run K.content_of (S.meaning store.now) self.old.context (high - low) low
            self.old slots.old).file }
        ensures cursor { self.new ≡ (fill_run K.content_of (S.meaning store.now) self.old.context (high - low) low
            self.old slots.old).cursor }
        ensures closed { FillShows K.zero_content K.content_of self.old.context low high self.old
            (S.meaning store.now) slots.old result self.new slots.new }
    {
        for position in low..high {
            self.fill(slots, store, position)?;
        }
        Ok(())
    }
}
