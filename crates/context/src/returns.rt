// Instructions that go back to a frame below: return, restore, load; park and resume.
ghost use Rattle.std.specs.Prelude.{◌≡◌, ◌+◌, ◌≤◌, IfOk};
ghost use Rattle.address.specs.Addresses.{capacity_of};
ghost use Rattle.frame.specs.Markers.{sof_of};
ghost use Rattle.frame.specs.Fields.{word_of};
ghost use Rattle.context.specs.Scenes.{seen, StackAlone};
ghost use Rattle.context.specs.Returns.{room_answer, room_after, low_first, refill_asked, refill_answer, refill_after, frame_answer, frame_after, back_after};
ghost use Rattle.context.specs.Returns.{return_base, restore_base, load_first, back_to, back_to_answer, load_answer, load_after, parked, resumed};

use super::record::Status;
use super::refusals::Refusal;
use super::sound::Context;
use address::{address_of, capacity, is_collection, positions_below};
use frame::FrameMarker;
use moves::{Cursor, MoveFault};
use register::{Kind, Slot, clear_registers};
use store::Store;

// Asks about the word of a lowering, where BSPSTORE is lowered to a collection: that word is the lowest.
fn ask_low<S: Store>(at: &Cursor, store: &S, word: u64) -> Result<(), MoveFault>
    ensures { result ≡ low_first (S.meaning store.now) at.now word }
{
    if is_collection(word) {
        at.ask_lowering(store, word)
    } else {
        Ok(())
    }
}

// Asks about every word of fills and a lowering.
fn ask_refill<S: Store>(
    at: &Cursor,
    store: &S,
    low: u32,
    high: u32,
    word: u64,
) -> Result<(), MoveFault>
    ensures { result ≡ refill_asked (S.meaning store.now) at.now low high word }
{
    ask_low(at, store, word)?;
    at.ask_fills(store, low, high)?;
    at.ask_lowering(store, word)
}

impl Context {
    // Spills, all asked about first, until all positions below `floor` are stored.
    fn make_room<K: Kind, S: Store>(
        &mut self,
        slots: &[Slot<K>],
        store: &mut S,
        floor: u32,
    ) -> Result<(), MoveFault>
        ensures answer { result ≡ room_answer K.zero_content K.image_of (seen self.old slots.now
            (S.meaning store.old)) floor }
        ensures after { seen self.new slots.now (S.meaning store.new)
            ≡ room_after K.zero_content K.image_of (seen self.old slots.now (S.meaning store.old)) floor }
    {
        let end = self.spill_end(floor);
        self.cursor().ask_spills(store, end)?;
        self.spill_to(slots, store, end)
    }

    // Fills the positions from `low` to `high` − 1 and lowers BSPSTORE to `word`, all asked about first.
    fn refill<K: Kind, S: Store>(
        &mut self,
        slots: &mut [Slot<K>],
        store: &S,
        low: u32,
        high: u32,
        word: u64,
    ) -> Result<(), MoveFault>
        ensures answer { result ≡ refill_answer K.content_of (seen self.old slots.old
            (S.meaning store.now)) low high word }
        ensures after { seen self.new slots.new (S.meaning store.now)
            ≡ refill_after K.content_of (seen self.old slots.old (S.meaning store.now)) low high word }
    {
        let mut at = self.cursor();
        ask_refill(&at, store, low, high, word)?;
        at.fill_run(slots, store, low, high)?;
        at.lower(store, word)?;
        self.settle(at);
        Ok(())
    }

    // A return either spills, to make room for the frame's top, or fills what the file lacks of the frame and lowers
    // BSPSTORE to its base, or moves nothing.
    fn move_frame<K: Kind, S: Store>(
        &mut self,
        slots: &mut [Slot<K>],
        store: &mut S,
        base: u32,
        top: u32,
    ) -> Result<(), MoveFault>
        ensures answer { result ≡ frame_answer K.zero_content K.image_of K.content_of
            (seen self.old slots.old (S.meaning store.old)) base top }
        ensures after { seen self.new slots.new (S.meaning store.new)
            ≡ frame_after K.zero_content K.image_of K.content_of (seen self.old slots.old
            (S.meaning store.old)) base top }
    {
        let stored = self.stack.stored();
        let floor = Context::floor(top, slots.len() as u64);
        if stored < u64::from(floor) {
            return self.make_room(slots, store, floor);
        }
        if stored > u64::from(base) {
            let high = self.stack.lo.min(top);
            let word = address_of(self.stack.start, base);
            return self.refill(slots, store, base, high, word);
        }
        Ok(())
    }

    // Goes back to the frame of a marker at `base`; positions that top rises past are cleared.
    fn go_back<K: Kind, S: Store>(
        &mut self,
        slots: &mut [Slot<K>],
        store: &mut S,
        base: u32,
        marker: FrameMarker,
    ) -> Result<(), MoveFault>
        requires { base + marker.sof ≤ capacity_of self.old.stack.size }
        ensures answer { result ≡ frame_answer K.zero_content K.image_of K.content_of
            (seen self.old slots.old (S.meaning store.old)) base (base + sof_of (word_of marker)) }
        ensures after { seen self.new slots.new (S.meaning store.new)
            ≡ back_after K.zero_content K.image_of K.content_of (seen self.old slots.old
            (S.meaning store.old)) base (word_of marker) }
    {
        let word = u64::from(marker);
        let old_top = self.top();
        let lo = self.stack.lo;
        let top = base + marker.sof();
        let floor = Context::floor(top, slots.len() as u64);
        self.move_frame(slots, store, base, top)?;
        clear_registers(slots, u64::from(old_top), u64::from(top));
        self.stack.lo = lo.min(base).max(floor);
        self.stack.base = base;
        self.stack.marker = word;
        Ok(())
    }

    // The base of the caller's frame.
    fn return_base(&self) -> Result<u32, Refusal>
        ensures base { result ≡ return_base self.now.stack }
        ensures held { IfOk result (λ b. b + sof_of self.now.stack.previous ≤ capacity_of self.now.stack.size) }
    {
        let marker = self.previous_marker();
        let base = self.stack.base;
        if u64::from(base + (marker.sof() - marker.sol())) > capacity(self.stack.size) {
            return Err(Refusal::Top);
        }
        if marker.sol() > base {
            return Err(Refusal::Depth);
        }
        Ok(base - marker.sol())
    }

    // Return: the previous marker is the marker again, and base falls by its locals. It shares `go_back` with restore: the base
    // and the marker are all that differs.
    pub fn return_to_caller<K: Kind, S: Store>(
        &mut self,
        slots: &mut [Slot<K>],
        store: &mut S,
    ) -> Result<(), Refusal>
        ensures answer { result ≡ back_to_answer K.zero_content K.image_of K.content_of
            (seen self.old slots.old (S.meaning store.old))
            (return_base self.old.stack) self.old.stack.previous }
        ensures after { seen self.new slots.new (S.meaning store.new)
            ≡ back_to K.zero_content K.image_of K.content_of (seen self.old slots.old (S.meaning store.old))
            (return_base self.old.stack) self.old.stack.previous }
    {
        let base = self.return_base()?;
        self.go_back(slots, store, base, self.previous_marker())?;
        Ok(())
    }

    // The base of the frame that was covered. A cover has put that frame below base.
    fn restore_base(&self) -> Result<u32, Refusal>
        ensures base { result ≡ restore_base self.now.stack }
        ensures held { IfOk result (λ b. b + sof_of self.now.stack.saved ≤ capacity_of self.now.stack.size) }
    {
        let marker = self.saved_marker();
        let base = self.stack.base;
        if marker.sof() > base {
            return Err(Refusal::Depth);
        }
        Ok(base - marker.sof())
    }

    // Restore: the saved marker is the marker again, and base falls by its frame.
    pub fn restore<K: Kind, S: Store>(
        &mut self,
        slots: &mut [Slot<K>],
        store: &mut S,
    ) -> Result<(), Refusal>
        ensures answer { result ≡ back_to_answer K.zero_content K.image_of K.content_of
            (seen self.old slots.old (S.meaning store.old))
            (restore_base self.old.stack) self.old.stack.saved }
        ensures after { seen self.new slots.new (S.meaning store.new)
            ≡ back_to K.zero_content K.image_of K.content_of (seen self.old slots.old (S.meaning store.old))
            (restore_base self.old.stack) self.old.stack.saved }
    {
        let base = self.restore_base()?;
        self.go_back(slots, store, base, self.saved_marker())?;
        Ok(())
    }

    // The first position of the `words` words below BSP, which hold at most 96 registers.
    fn load_first(&self, words: u64) -> Result<u32, Refusal>
        ensures first { result ≡ load_first self.now.stack words }
    {
        let bsp = self.stack.bsp();
        if words > bsp - u64::from(self.stack.start) {
            return Err(Refusal::Depth);
        }
        let first = positions_below(self.stack.start, bsp - words) as u32;
        if self.stack.base - first > 96 {
            return Err(Refusal::TooMany);
        }
        Ok(first)
    }

    // Load: fills anew the registers of the `words` words below BSP, and lowers BSPSTORE by as many; they are dirty then.
    pub fn load<K: Kind, S: Store>(
        &mut self,
        slots: &mut [Slot<K>],
        store: &S,
        words: u64,
    ) -> Result<(), Refusal>
        ensures answer { result ≡ load_answer K.content_of (seen self.old slots.old
            (S.meaning store.now)) words }
        ensures after { seen self.new slots.new (S.meaning store.now)
            ≡ load_after K.content_of (seen self.old slots.old (S.meaning store.now)) words }
    {
        let first = self.load_first(words)?;
        let word = self.stack.bsp().saturating_sub(words);
        self.refill(slots, store, first, self.stack.base, word)?;
        self.stack.lo = first;
        Ok(())
    }

    // Parks: no slot holds a position any more.
    pub fn park(&mut self)
        ensures { StackAlone parked self.old self.new }
    {
        self.stack.status = Status::Parked;
        self.stack.lo = self.stack.base;
    }

    // Resumes: the file holds nothing, and all below base is stored.
    pub fn resume(&mut self)
        ensures { StackAlone resumed self.old self.new }
    {
        self.stack.status = Status::Current;
        self.stack.lo = self.stack.base;
        self.stack.bspstore = self.stack.bsp();
    }
}
