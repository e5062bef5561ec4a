// Instructions that spill: alloc, flush, the early spill; and the early fill.
ghost use Rattle.std.specs.Prelude.{◌≡◌, ◌+◌, ◌-◌, ◌<◌, ◌≤◌, IfOk};
ghost use Rattle.address.specs.Addresses.{capacity_of};
ghost use Rattle.frame.specs.Fields.{word_of};
ghost use Rattle.context.specs.Records.{with_moves};
ghost use Rattle.context.specs.Scenes.{seen, spilled, with_file, if_moved};
ghost use Rattle.context.specs.Spilling.{spill_end_of, alloc_marker, worded, run_to, grow_run, grown, alloc_answer, alloc_after, flush_run, flush_answer};
ghost use Rattle.context.specs.Spilling.{early_spill_answer, early_spill_after, early_fill_run, early_filled, early_fill_answer, early_fill_after};

use super::refusals::Refusal;
use super::sound::Context;
use address::{address_of, capacity};
use frame::FrameMarker;
use moves::{Cursor, MoveFault};
use register::{Kind, Slot, clear_registers};
use store::Store;

impl Context {
    // Takes over where the moves stand.
    pub(crate) fn settle(&mut self, at: Cursor)
        ensures stack { self.new.stack ≡ with_moves self.old.stack at }
        ensures counts { self.new.counts ≡ at.counts }
        ensures number { self.new.number ≡ self.old.number }
    {
        self.stack.bspstore = at.bspstore;
        self.stack.rnat = at.rnat;
        self.counts = at.counts;
    }

    // Spills until BSPSTORE is `end`.
    pub(crate) fn spill_to<K: Kind, S: Store>(
        &mut self,
        slots: &[Slot<K>],
        store: &mut S,
        end: u64,
    ) -> Result<(), MoveFault>
        ensures answer { result
            ≡ (run_to K.zero_content K.image_of (seen self.old slots.now (S.meaning store.old)) end).answer }
        ensures after { seen self.new slots.now (S.meaning store.new)
            ≡ spilled (seen self.old slots.now (S.meaning store.old))
            (run_to K.zero_content K.image_of (seen self.old slots.now (S.meaning store.old)) end) }
    {
        let mut at = self.cursor();
        let moved = at.spill_until(slots, store, end);
        self.settle(at);
        moved
    }

    // The word past the last that is spilled until all positions below `floor` are stored.
    pub(crate) fn spill_end(&self, floor: u32) -> u64
        ensures { result ≡ spill_end_of self.now.stack floor }
    {
        if self.stack.stored() < u64::from(floor) {
            address_of(self.stack.start, floor - 1) + 1
        } else {
            self.stack.bspstore
        }
    }

    // The lowest position that a file of so many slots holds below `top`.
    pub(crate) fn floor(top: u32, slots: u64) -> u32
        ensures { result ≡ top - slots }
    {
        u64::from(top).saturating_sub(slots) as u32
    }

    // The marker that alloc sets, where it is lawful and the new top lies in the region.
    fn allocated(&self, sof: u64, sol: u64, sor: u64) -> Result<FrameMarker, Refusal>
        ensures word { worded result ≡ alloc_marker self.now.stack sof sol sor }
        ensures held { IfOk result (λ m. self.now.stack.base + m.sof ≤ capacity_of self.now.stack.size) }
    {
        let old = self.marker();
        let shape = FrameMarker::from_parts(sof, sol, sor, 0)?;
        if shape.sor() != old.sor() && old.rotation() != 0 {
            return Err(Refusal::Rotation);
        }
        if u64::from(self.stack.base + shape.sof()) > capacity(self.stack.size) {
            return Err(Refusal::Top);
        }
        Ok(FrameMarker::from_parts(sof, sol, sor, u64::from(old.rotation()))?)
    }

    // Makes room for the frame of a marker by spills, and clears the positions that top rises past. At a shut
    // word the spills before it stand.
    fn grow<K: Kind, S: Store>(
        &mut self,
        slots: &mut [Slot<K>],
        store: &mut S,
        marker: FrameMarker,
    ) -> Result<(), MoveFault>
        requires { self.old.stack.base + marker.sof ≤ capacity_of self.old.stack.size }
        ensures answer { result
            ≡ (grow_run K.zero_content K.image_of (seen self.old slots.old (S.meaning store.old)) (word_of marker)).answer }
        ensures after { seen self.new slots.new (S.meaning store.new)
            ≡ grown K.zero_content (seen self.old slots.old (S.meaning store.old))
            (grow_run K.zero_content K.image_of (seen self.old slots.old (S.meaning store.old)) (word_of marker)) (word_of marker) }
    {
        let word = u64::from(marker);
        let old_top = self.top();
        let top = self.stack.base + marker.sof();
        let floor = Context::floor(top, slots.len() as u64);
        let end = self.spill_end(floor);
        self.spill_to(slots, store, end)?;
        clear_registers(slots, u64::from(old_top), u64::from(top));
        self.stack.lo = self.stack.lo.max(floor);
        self.stack.marker = word;
        Ok(())
    }

    // Alloc: the frame gets another size; answers the previous marker's word. Its operands stay three numbers, as a line has
    // them: a struct would be made and taken apart for one call.
    pub fn alloc<K: Kind, S: Store>(
        &mut self,
        slots: &mut [Slot<K>],
        store: &mut S,
        sof: u64,
        sol: u64,
        sor: u64,
    ) -> Result<u64, Refusal>
        ensures answer { result
            ≡ alloc_answer K.zero_content K.image_of (seen self.old slots.old (S.meaning store.old)) sof sol sor }
        ensures after { seen self.new slots.new (S.meaning store.new)
            ≡ alloc_after K.zero_content K.image_of (seen self.old slots.old (S.meaning store.old)) sof sol sor }
    {
        let marker = self.allocated(sof, sol, sor)?;
        self.grow(slots, store, marker)?;
        Ok(self.stack.previous)
    }

    // Flush: spills until BSPSTORE is BSP, and answers BSP and RNAT.
    pub fn flush<K: Kind, S: Store>(
        &mut self,
        slots: &[Slot<K>],
        store: &mut S,
    ) -> Result<(u64, u64), Refusal>
        ensures answer { result
            ≡ flush_answer K.zero_content K.image_of (seen self.old slots.now (S.meaning store.old)) }
        ensures after { seen self.new slots.now (S.meaning store.new)
            ≡ spilled (seen self.old slots.now (S.meaning store.old))
            (flush_run K.zero_content K.image_of (seen self.old slots.now (S.meaning store.old))) }
    {
        let bsp = self.stack.bsp();
        self.spill_to(slots, store, bsp)?;
        Ok((bsp, self.stack.rnat))
    }

    // One early spill step.
    pub fn early_spill<K: Kind, S: Store>(
        &mut self,
        slots: &[Slot<K>],
        store: &mut S,
    ) -> Result<(), Refusal>
        ensures answer { result
            ≡ early_spill_answer K.zero_content K.image_of (seen self.old slots.now (S.meaning store.old)) }
        ensures after { seen self.new slots.now (S.meaning store.new)
            ≡ early_spill_after K.zero_content K.image_of (seen self.old slots.now (S.meaning store.old)) }
    {
        if self.stack.bspstore >= self.stack.bsp() {
            return Err(Refusal::Nothing);
        }
        self.spill_to(slots, store, self.stack.bspstore + 1)?;
        Ok(())
    }

    // Fills the position below `lo`.
    fn fill_below<K: Kind, S: Store>(
        &mut self,
        slots: &mut [Slot<K>],
        store: &S,
    ) -> Result<(), MoveFault>
        requires { 0 < self.old.stack.lo }
        ensures answer { result
            ≡ (early_fill_run K.content_of (seen self.old slots.old (S.meaning store.now))).answer }
        ensures after { seen self.new slots.new (S.meaning store.now)
            ≡ if_moved (early_fill_run K.content_of (seen self.old slots.old (S.meaning store.now))).answer
            (early_filled (seen self.old slots.old
            (S.meaning store.now)) (early_fill_run K.content_of (seen self.old slots.old
            (S.meaning store.now))))
            (with_file (seen self.old slots.old
            (S.meaning store.now)) (early_fill_run K.content_of (seen self.old slots.old
            (S.meaning store.now))).file) }
    {
        let lo = self.stack.lo;
        let mut at = self.cursor();
        at.fill_run(slots, store, lo - 1, lo)?;
        self.settle(at);
        self.stack.lo = lo - 1;
        Ok(())
    }

    // One early fill, of the position below `lo`, where the file has room for it.
    pub fn early_fill<K: Kind, S: Store>(
        &mut self,
        slots: &mut [Slot<K>],
        store: &S,
    ) -> Result<(), Refusal>
        ensures answer { result
            ≡ early_fill_answer K.content_of (seen self.old slots.old (S.meaning store.now)) }
        ensures after { seen self.new slots.new (S.meaning store.now)
            ≡ early_fill_after K.content_of (seen self.old slots.old (S.meaning store.now)) }
    {
        let lo = self.stack.lo;
        if lo == 0 || u64::from(self.top().saturating_sub(lo)) >= slots.len() as u64 {
            return Err(Refusal::Nothing);
        }
        self.fill_below(slots, store)?;
        Ok(())
    }
}
