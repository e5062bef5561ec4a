// Instructions on the context that is driven: each takes it out of its entry, and those that change it put it back.
ghost use Rattle.std.specs.Prelude.{◌≡◌, true, false, cond, length, if◌then◌else◌, Err};
ghost use Rattle.context.specs.declared.refusals.Refusal.TheVariants.{Mode};
ghost use Rattle.context.specs.Frames.{previous_set, previous_answer, read_answer};
ghost use Rattle.context.specs.Scenes.{spilled};
ghost use Rattle.context.specs.Spilling.{alloc_answer, alloc_after, flush_run, flush_answer, early_spill_answer, early_spill_after};
ghost use Rattle.context.specs.Spilling.{early_fill_answer, early_fill_after};
ghost use Rattle.context.specs.Returns.{return_base, restore_base, back_to, back_to_answer, load_answer, load_after};
ghost use Rattle.engine.specs.declared.instructions.Answer.TheVariants.{Done, Marker};
ghost use Rattle.engine.specs.declared.machine.State.TheVariants.{Running, Covered, Flushed};
ghost use Rattle.engine.specs.Invariants.{is_idle, is_closed, is_flushed};
ghost use Rattle.engine.specs.Tables.{record_at};
ghost use Rattle.engine.specs.Hosts.{hosted, scene_of, lifted};
ghost use Rattle.engine.specs.Running.{answered, restacked, shown_as, flushed_as, leaves, after_flush, spills_early, fills_early};

use super::instructions::{Answer, shown};
use super::machine::State;
use super::sound::Engine;
use context::Refusal;
use register::{Kind, Slot};
use store::Store;

// These move registers, so none is passed to `change`: it would have to take the file and the store as well, and three borrowed
// parameters are no plainer than taking the context out and putting it back. What they require of the state and of the
// file's length `execute` asks once: a type that says it would hold the lent slots.
impl Engine {
    // At a shut word the spills before it stand.
    pub(crate) fn alloc<K: Kind, S: Store>(
        &mut self,
        slots: &mut [Slot<K>],
        store: &mut S,
        sof: u64,
        sol: u64,
        sor: u64,
    ) -> Result<Answer, Refusal>
        requires state { self.old.machine.state ≡ Running }
        requires file { length slots.old ≡ self.old.machine.slots }
        ensures answer { result ≡ answered Marker (alloc_answer K.zero_content K.image_of (scene_of
            (hosted self.old.machine slots.old (S.meaning store.old))) sof sol sor) }
        ensures after { hosted self.new.machine slots.new (S.meaning store.new)
            ≡ lifted (hosted self.old.machine slots.old (S.meaning store.old))
            (alloc_after K.zero_content K.image_of (scene_of (hosted self.old.machine slots.old
            (S.meaning store.old))) sof sol sor) }
    {
        let mut context = self.context();
        let previous = context.alloc(slots, store, sof, sol, sor);
        self.put(context);
        Ok(Answer::Marker(previous?))
    }

    pub(crate) fn return_to_caller<K: Kind, S: Store>(
        &mut self,
        slots: &mut [Slot<K>],
        store: &mut S,
    ) -> Result<Answer, Refusal>
        requires state { self.old.machine.state ≡ Running }
        requires file { length slots.old ≡ self.old.machine.slots }
        ensures answer { result ≡ answered (λ _. Done) (back_to_answer K.zero_content K.image_of K.content_of
            (scene_of (hosted self.old.machine slots.old
            (S.meaning store.old))) (return_base (record_at self.old.machine
            self.old.machine.current)) (record_at self.old.machine self.old.machine.current).previous) }
        ensures after { hosted self.new.machine slots.new (S.meaning store.new)
            ≡ lifted (hosted self.old.machine slots.old
            (S.meaning store.old)) (back_to K.zero_content K.image_of K.content_of
            (scene_of (hosted self.old.machine slots.old
            (S.meaning store.old))) (return_base (record_at self.old.machine
            self.old.machine.current)) (record_at self.old.machine self.old.machine.current).previous) }
    {
        let mut context = self.context();
        let returned = context.return_to_caller(slots, store);
        self.put(context);
        returned?;
        Ok(Answer::Done)
    }

    pub(crate) fn read<K: Kind>(&self, slots: &[Slot<K>], register: u64) -> Result<Answer, Refusal>
        ensures { result ≡ answered (shown_as K.image_of) (read_answer K.zero_content (record_at self.now.machine
            self.now.machine.current) slots.now register) }
    {
        Ok(shown(self.context().read(slots, register)?))
    }

    pub(crate) fn previous(&self) -> Answer
        ensures { result ≡ Marker (record_at self.now.machine self.now.machine.current).previous }
    {
        Answer::Marker(self.context().stack.previous)
    }

    pub(crate) fn set_previous(&mut self, word: u64) -> Result<Answer, Refusal>
        requires { self.old.machine.state ≡ Running }
        ensures answer { result ≡ answered (λ _. Done) (previous_answer word) }
        ensures machine { self.new.machine ≡ restacked self.old.machine (λ r. previous_set r word) }
    {
        self.change(State::Running, |context| context.set_previous(word))?;
        Ok(Answer::Done)
    }

    pub(crate) fn restore<K: Kind, S: Store>(
        &mut self,
        slots: &mut [Slot<K>],
        store: &mut S,
    ) -> Result<Answer, Refusal>
        requires state { is_closed self.old.machine.state ≡ true }
        requires file { length slots.old ≡ self.old.machine.slots }
        ensures answer { result ≡ answered (λ _. Done) (back_to_answer K.zero_content K.image_of K.content_of
            (scene_of (hosted self.old.machine slots.old
            (S.meaning store.old))) (restore_base (record_at self.old.machine
            self.old.machine.current)) (record_at self.old.machine self.old.machine.current).saved) }
        ensures after { hosted self.new.machine slots.new (S.meaning store.new)
            ≡ leaves (hosted self.old.machine slots.old
            (S.meaning store.old)) (back_to K.zero_content K.image_of K.content_of
            (scene_of (hosted self.old.machine slots.old
            (S.meaning store.old))) (restore_base (record_at self.old.machine
            self.old.machine.current)) (record_at self.old.machine self.old.machine.current).saved) result Running }
    {
        let mut context = self.context();
        let answer = context.restore(slots, store);
        self.enter(context, answer, State::Running)?;
        Ok(Answer::Done)
    }

    // At a shut word the spills before it stand. A covered context is flushed then, a running one goes on.
    pub(crate) fn flush<K: Kind, S: Store>(
        &mut self,
        slots: &[Slot<K>],
        store: &mut S,
    ) -> Result<Answer, Refusal>
        requires driven { is_idle self.old.machine.state ≡ false }
        requires state { is_flushed self.old.machine.state ≡ false }
        ensures answer { result ≡ answered flushed_as (flush_answer K.zero_content K.image_of (scene_of
            (hosted self.old.machine slots.now (S.meaning store.old)))) }
        ensures after { hosted self.new.machine slots.now (S.meaning store.new)
            ≡ leaves (hosted self.old.machine slots.now
            (S.meaning store.old)) (spilled (scene_of (hosted self.old.machine slots.now
            (S.meaning store.old)))
            (flush_run K.zero_content K.image_of (scene_of (hosted self.old.machine slots.now
            (S.meaning store.old))))) result (after_flush self.old.machine.state) }
    {
        let mut context = self.context();
        let answer = context.flush(slots, store);
        let (bsp, rnat) = self.enter(context, answer, after_flush(self.machine.state))?;
        Ok(Answer::Flushed { bsp, rnat })
    }

    // Where the mode allows it. The early spill and the early fill stay two: one writes the store, and one reads it.
    pub(crate) fn early_spill<K: Kind, S: Store>(
        &mut self,
        slots: &[Slot<K>],
        store: &mut S,
    ) -> Result<Answer, Refusal>
        requires driven { is_idle self.old.machine.state ≡ false }
        requires state { is_flushed self.old.machine.state ≡ false }
        ensures answer { result ≡ cond (spills_early (hosted self.old.machine slots.now (S.meaning store.old)))
            (answered (λ _. Done) (early_spill_answer K.zero_content K.image_of (scene_of
            (hosted self.old.machine slots.now (S.meaning store.old))))) (Err Mode) }
        ensures after { hosted self.new.machine slots.now (S.meaning store.new)
            ≡ (if spills_early (hosted self.old.machine slots.now
            (S.meaning store.old)) then lifted (hosted self.old.machine slots.now
            (S.meaning store.old))
            (early_spill_after K.zero_content K.image_of (scene_of (hosted self.old.machine slots.now
            (S.meaning store.old)))) else hosted self.old.machine slots.now (S.meaning store.old)) }
    {
        if !self.machine.mode.spills {
            return Err(Refusal::Mode);
        }
        let mut context = self.context();
        let spilled = context.early_spill(slots, store);
        self.put(context);
        spilled?;
        Ok(Answer::Done)
    }

    // Where the mode allows it.
    pub(crate) fn early_fill<K: Kind, S: Store>(
        &mut self,
        slots: &mut [Slot<K>],
        store: &S,
    ) -> Result<Answer, Refusal>
        requires driven { is_idle self.old.machine.state ≡ false }
        requires state { is_flushed self.old.machine.state ≡ false }
        requires file { length slots.old ≡ self.old.machine.slots }
        ensures answer { result ≡ cond (fills_early (hosted self.old.machine slots.old (S.meaning store.now)))
            (answered (λ _. Done) (early_fill_answer K.content_of (scene_of (hosted self.old.machine slots.old
            (S.meaning store.now))))) (Err Mode) }
        ensures after { hosted self.new.machine slots.new (S.meaning store.now)
            ≡ (if fills_early (hosted self.old.machine slots.old
            (S.meaning store.now)) then lifted (hosted self.old.machine slots.old
            (S.meaning store.now))
            (early_fill_after K.content_of (scene_of (hosted self.old.machine slots.old
            (S.meaning store.now)))) else hosted self.old.machine slots.old (S.meaning store.now)) }
    {
        if !self.machine.mode.fills {
            return Err(Refusal::Mode);
        }
        let mut context = self.context();
        let filled = context.early_fill(slots, store);
        self.put(context);
        filled?;
        Ok(Answer::Done)
    }

    pub(crate) fn load<K: Kind, S: Store>(
        &mut self,
        slots: &mut [Slot<K>],
        store: &S,
        words: u64,
    ) -> Result<Answer, Refusal>
        requires state { self.old.machine.state ≡ Flushed }
        requires file { length slots.old ≡ self.old.machine.slots }
        ensures answer { result ≡ answered (λ _. Done) (load_answer K.content_of (scene_of
            (hosted self.old.machine slots.old (S.meaning store.now))) words) }
        ensures after { hosted self.new.machine slots.new (S.meaning store.now)
            ≡ leaves (hosted self.old.machine slots.old (S.meaning store.now))
            (load_after K.content_of (scene_of (hosted self.old.machine slots.old
            (S.meaning store.now))) words) result Covered }
    {
        let mut context = self.context();
        let answer = context.load(slots, store, words);
        self.enter(context, answer, State::Covered)?;
        Ok(Answer::Done)
    }
}

// A covered context is flushed after a flush, a running one goes on.
fn after_flush(state: State) -> State
    ensures { result ≡ after_flush state }
{
    match state {
        State::Covered => State::Flushed,
        _ => state,
    }
}
