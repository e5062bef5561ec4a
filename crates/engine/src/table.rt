// Instructions on the table: begin, resume, retire; what changes an entry; and the questions that alter nothing.
// That an entry is one of the eight `in_range` asks once, before all of these: a type for it would be made for one call. What a record
// must be to fit an entry in a state is one record of specs/, `Fits`, which depends on both, so that no type can say it.
ghost use Rattle.std.specs.Prelude.{◌≡◌, ◌<◌};
ghost use Rattle.engine.specs.Tables.{record_at};
ghost use Rattle.engine.specs.declared.machine.State.TheVariants.{Idle, Flushed};
ghost use Rattle.engine.specs.Invariants.{Fits};
ghost use Rattle.engine.specs.Hosts.{with_entry, put_back, driving, in_state, in_mode};
ghost use Rattle.engine.specs.Changes.{FitsAfter, Changes};
ghost use Rattle.engine.specs.Modes.{mode_of, state_number};
ghost use Rattle.engine.specs.Running.{enters};
ghost use Rattle.engine.specs.Rules.{lies_apart, is_clear, begin_answer, begin_machine};
ghost use Rattle.engine.specs.Rules.{parked_answer, resume_machine, retire_machine};
ghost use Rattle.engine.specs.declared.instructions.Answer.TheVariants.{Done, State as StateAnswer};
ghost use Rattle.context.specs.Records.{bsp_of};
ghost use Rattle.engine.specs.Steps.{state_of, counts_of, driven};

use super::instructions::Answer;
use super::machine::{EMPTY, Mode, State};
use super::sound::Engine;
use context::{Context, ContextRecord, Refusal, Region, Status};

// Do a region and a context's lie apart?
fn apart(region: Region, other: &ContextRecord) -> bool
    ensures { result ≡ lies_apart region.start region.size other.now }
{
    match other.status {
        Status::Empty => true,
        _ => {
            u64::from(region.start) + u64::from(region.size) <= u64::from(other.start)
                || u64::from(other.start) + u64::from(other.size) <= u64::from(region.start)
        }
    }
}

impl Engine {
    // The context of the entry `k`.
    fn entry(&self, k: usize) -> Context
        requires { k < 8 }
        ensures stack { result.stack ≡ record_at self.now.machine k }
        ensures number { result.number ≡ k }
        ensures counts { result.counts ≡ self.now.machine.counts }
    {
        Context {
            stack: self.machine.table.entries[k],
            number: k as u64,
            counts: self.machine.counts,
        }
    }

    // The context that is driven.
    pub(crate) fn context(&self) -> Context
        ensures stack { result.stack ≡ record_at self.now.machine self.now.machine.current }
        ensures number { result.number ≡ self.now.machine.current }
        ensures counts { result.counts ≡ self.now.machine.counts }
    {
        self.entry(self.machine.current)
    }

    // Puts a context into the entry `k`; no other entry changes. Not by `drive`: what is driven stays. A context and not its
    // record, which has no invariant.
    fn replace(&mut self, k: usize, context: Context)
        requires entry { k < 8 }
        requires fits { Fits self.old.machine context.stack }
        ensures { self.new.machine ≡ with_entry self.old.machine k context.stack }
    {
        self.machine.table.entries[k] = context.stack;
    }

    // Puts the context that is driven back into its entry.
    pub(crate) fn put(&mut self, context: Context)
        requires { Fits self.old.machine context.stack }
        ensures { self.new.machine ≡ put_back self.old.machine context.stack context.counts }
    {
        self.leave(context, self.machine.state);
    }

    // Puts it back, and enters another state.
    pub(crate) fn leave(&mut self, context: Context, state: State)
        requires { Fits (in_state self.old.machine state) context.stack }
        ensures { self.new.machine ≡ in_state (put_back self.old.machine context.stack context.counts) state }
    {
        self.drive(self.machine.current, context, state);
    }

    // Puts it back after an instruction, and enters another state where that was granted.
    pub(crate) fn enter<T>(
        &mut self,
        context: Context,
        answer: Result<T, Refusal>,
        state: State,
    ) -> Result<T, Refusal>
        requires { Fits (enters answer state self.old.machine) context.stack }
        ensures answer { result ≡ answer }
        ensures machine { self.new.machine ≡ enters answer state (put_back self.old.machine context.stack context.counts) }
    {
        let next = if answer.is_ok() {
            state
        } else {
            self.machine.state
        };
        self.leave(context, next);
        answer
    }

    // An instruction on the record of the context that is driven: it is taken out, changed and put back, and a state entered.
    pub(crate) fn change<T, F: FnOnce(&mut Context) -> T>(
        &mut self,
        state: State,
        instruction: F,
    ) -> T
        requires callable { F.IsAlwaysCallable instruction }
        requires fits { FitsAfter (F.FnOnce) instruction self.old.machine state }
        ensures { Changes (F.FnOnce) instruction self.old.machine state result self.new.machine }
    {
        let mut context = self.context();
        let answer = instruction(&mut context);
        self.leave(context, state);
        answer
    }

    // The same, of an instruction that answers nothing.
    pub(crate) fn done<F: FnOnce(&mut Context)>(&mut self, state: State, instruction: F) -> Answer
        requires callable { F.IsAlwaysCallable instruction }
        requires fits { FitsAfter F.FnOnce instruction self.old.machine state }
        ensures answer { result ≡ Done }
        ensures machine { Changes F.FnOnce instruction self.old.machine state tt self.new.machine }
    {
        self.change(state, instruction);
        Answer::Done
    }

    // Makes the entry `k` the one that is driven, puts a context into it, and enters a state.
    fn drive(&mut self, k: usize, context: Context, state: State)
        requires entry { k < 8 }
        requires fits { Fits (in_state self.old.machine state) context.stack }
        ensures { self.new.machine ≡ driving self.old.machine k context.stack context.counts state }
    {
        self.machine.table.entries[k] = context.stack;
        self.machine.current = k;
        self.machine.counts = context.counts;
        self.machine.state = state;
    }

    // Is the region clear of every context that is not retired?
    fn is_clear(&self, region: Region) -> bool
        ensures { result ≡ is_clear region.start region.size self.now.machine.table.entries }
    {
        self.machine
            .table
            .entries
            .iter()
            .all(|other| apart(region, other))
    }

    pub(crate) fn begin(&mut self, context: u64, start: u64, size: u64) -> Result<Answer, Refusal>
        requires { context < 8 }
        ensures answer { result ≡ begin_answer self.old.machine context start size }
        ensures machine { self.new.machine ≡ begin_machine self.old.machine context start size }
    {
        let k = context as usize;
        let Status::Empty = self.machine.table.entries[k].status else {
            return Err(Refusal::Entry);
        };
        let region = Region::new(start, size, self.machine.words).ok_or(Refusal::Region)?;
        if !self.is_clear(region) {
            return Err(Refusal::Overlap);
        }
        self.drive(
            k,
            Context::begin(region, context, self.machine.counts),
            State::Running,
        );
        Ok(Answer::Done)
    }

    pub(crate) fn resume(&mut self, context: u64) -> Result<Answer, Refusal>
        requires { context < 8 }
        ensures answer { result ≡ parked_answer self.old.machine context }
        ensures machine { self.new.machine ≡ resume_machine self.old.machine context }
    {
        let k = context as usize;
        let Status::Parked = self.machine.table.entries[k].status else {
            return Err(Refusal::Entry);
        };
        let mut resumed = self.entry(k);
        resumed.resume();
        self.drive(k, resumed, State::Flushed);
        Ok(Answer::Done)
    }

    pub(crate) fn retire(&mut self, context: u64) -> Result<Answer, Refusal>
        requires entry { context < 8 }
        requires idle { self.old.machine.state ≡ Idle }
        ensures answer { result ≡ parked_answer self.old.machine context }
        ensures machine { self.new.machine ≡ retire_machine self.old.machine context }
    {
        let k = context as usize;
        let Status::Parked = self.machine.table.entries[k].status else {
            return Err(Refusal::Entry);
        };
        let empty = Context {
            stack: EMPTY,
            number: context,
            counts: self.machine.counts,
        };
        self.replace(k, empty);
        Ok(Answer::Done)
    }

    pub(crate) fn set_mode(&mut self, mode: u64) -> Answer
        ensures answer { result ≡ Done }
        ensures machine { self.new.machine ≡ in_mode self.old.machine (mode_of mode) }
    {
        self.machine.mode = Mode::from(mode);
        Answer::Done
    }

    // State, context, base, marker word and BSP; all 0 in idle.
    pub(crate) fn state(&self) -> Answer
        ensures { result ≡ state_of self.now.machine }
    {
        match self.machine.state {
            State::Idle => Answer::State {
                state: u64::from(State::Idle),
                context: 0,
                base: 0,
                marker: 0,
                bsp: 0,
            },
            state => self.shown(state),
        }
    }

    // What that question shows of the context that is driven.
    fn shown(&self, state: State) -> Answer
        ensures { result ≡ StateAnswer (state_number state) self.now.machine.current (driven self.now.machine).base (driven
            self.now.machine).marker (bsp_of (driven self.now.machine)) }
    {
        let context = self.context();
        Answer::State {
            state: u64::from(state),
            context: context.number,
            base: u64::from(context.stack.base),
            marker: context.stack.marker,
            bsp: context.stack.bsp(),
        }
    }

    pub(crate) fn counts(&self) -> Answer
        ensures { result ≡ counts_of self.now.machine }
    {
        Answer::Counts {
            written: self.machine.counts.written,
            read: self.machine.counts.read,
        }
    }
}
