// The table engine: eight contexts over one file and one store, one instruction at a time.
#![tactic(auto)]

ghost use Rattle.std.specs.Prelude.{◌≡◌, true, false, length, MatchResult};
ghost use Rattle.engine.specs.Hosts.{hosted};
ghost use Rattle.context.specs.declared.refusals.Refusal.TheVariants.{Host as WrongHost};
ghost use Rattle.engine.specs.Bounds.{NeverTooDeep, FewWritten};
ghost use Rattle.engine.specs.Rules.{in_range};
ghost use Rattle.engine.specs.Making.{can_make, new_machine};
ghost use Rattle.engine.specs.Steps.{step_answer, step_after, ruled, ruled_after};

mod asking;
mod instructions;
mod machine;
mod running;
mod sound;
mod table;

use asking::in_range;
use context::{Context, LONGEST_STORE, Refusal};
pub use instructions::{Answer, Instruction};
use machine::EMPTY;
pub use machine::{ContextTable, Machine, Mode, State};
use moves::Counts;
use register::{Kind, Slot};
pub use sound::Engine;
use store::Store;

impl Engine {
    // A new engine, for files of so many slots over stores of so many words: slots a multiple of 16 from 96 to 2,048,
    // words a multiple of 64 from 64 to 65,536.
    pub fn new(slots: u64, words: u64) -> Result<Engine, Refusal>
        ensures { MatchResult result
            (λ e. (can_make slots words ≡ true) × (e.machine ≡ new_machine slots words))
            (λ e. (can_make slots words ≡ false) × (e ≡ WrongHost)) }
    {
        if slots % 16 != 0 || slots < 96 || slots > 2048 {
            return Err(Refusal::Host);
        }
        if words % 64 != 0 || words < 64 || words > LONGEST_STORE {
            return Err(Refusal::Host);
        }
        Ok(Engine {
            machine: Machine {
                slots,
                words,
                state: State::Idle,
                current: 0,
                table: ContextTable {
                    entries: [EMPTY; 8],
                },
                mode: Mode::from(0),
                counts: Counts::default(),
            },
        })
    }

    // One instruction. The host hands each call the same file and the same store, altered by no one else. A restore is
    // never refused for its depth, and an alloc writes at most 98 words.
    pub fn step<K: Kind, S: Store>(
        &mut self,
        slots: &mut [Slot<K>],
        store: &mut S,
        instruction: Instruction,
    ) -> Result<Answer, Refusal>
        ensures answer { result ≡ step_answer K.zero_content K.image_of K.content_of
            (hosted self.old.machine slots.old (S.meaning store.old)) instruction }
        ensures after { hosted self.new.machine slots.new (S.meaning store.new)
            ≡ step_after K.zero_content K.image_of K.content_of K.sum_of
            (hosted self.old.machine slots.old (S.meaning store.old)) instruction }
        ensures restored { NeverTooDeep instruction result }
        ensures words { FewWritten instruction self.old.machine.counts.written self.new.machine.counts.written }
    {
        if slots.len() as u64 != self.machine.slots || store.len() != self.machine.words {
            return Err(Refusal::Host);
        }
        if !in_range(instruction) {
            return Err(Refusal::Operand);
        }
        self.execute(slots, store, instruction)
    }

    // An instruction whose operands are in range, in the state that there is. Both are matched in place: what is allowed in which state
    // is one table, so the file's length and the state are required of what it calls.
    fn execute<K: Kind, S: Store>(
        &mut self,
        slots: &mut [Slot<K>],
        store: &mut S,
        instruction: Instruction,
    ) -> Result<Answer, Refusal>
        requires { (in_range instruction ≡ true) × (length slots.old ≡ self.old.machine.slots) }
        ensures answer { result ≡ ruled K.zero_content K.image_of K.content_of
            (hosted self.old.machine slots.old (S.meaning store.old)) instruction }
        ensures after { hosted self.new.machine slots.new (S.meaning store.new)
            ≡ ruled_after K.zero_content K.image_of K.content_of K.sum_of
            (hosted self.old.machine slots.old (S.meaning store.old)) instruction }
    {
        match (instruction, self.machine.state) {
            (
                Instruction::Begin {
                    context,
                    start,
                    size,
                },
                State::Idle,
            ) => self.begin(context, start, size),
            (Instruction::Resume { context }, State::Idle) => self.resume(context),
            (Instruction::Retire { context }, State::Idle) => self.retire(context),
            (Instruction::Alloc { sof, sol, sor }, State::Running) => {
                self.alloc(slots, store, sof, sol, sor)
            }
            (Instruction::Call, State::Running) => Ok(self.done(State::Running, Context::call)),
            (Instruction::Return, State::Running) => self.return_to_caller(slots, store),
            (Instruction::Cover, State::Running) => Ok(self.done(State::Covered, Context::cover)),
            (
                Instruction::Write {
                    register,
                    word,
                    nat,
                },
                State::Running,
            ) => {
                self.context().write(slots, register, word, nat == 1)?;
                Ok(Answer::Done)
            }
            (Instruction::Copy { target, source }, State::Running) => {
                self.context().copy(slots, target, source)?;
                Ok(Answer::Done)
            }
            (
                Instruction::Add {
                    target,
                    left,
                    right,
                },
                State::Running,
            ) => {
                self.context().add(slots, target, left, right)?;
                Ok(Answer::Done)
            }
            (Instruction::Read { register }, State::Running) => self.read(slots, register),
            (Instruction::Rotate, State::Running) => Ok(self.done(State::Running, Context::rotate)),
            (Instruction::ResetRotation, State::Running) => Ok(self.done(
                State::Running,
                Context::reset_rotation,
            )),
            (Instruction::Previous, State::Running) => Ok(self.previous()),
            (Instruction::SetPrevious { word }, State::Running) => self.set_previous(word),
            (Instruction::Restore, State::Covered | State::Flushed) => self.restore(slots, store),
            (Instruction::Flush, State::Running | State::Covered) => self.flush(slots, store),
            (Instruction::EarlySpill, State::Running | State::Covered) => {
                self.early_spill(slots, store)
            }
            (Instruction::EarlyFill, State::Running | State::Covered) => {
                self.early_fill(slots, store)
            }
            (Instruction::Load { words }, State::Flushed) => self.load(slots, store, words),
            (Instruction::Park, State::Flushed) => Ok(self.done(State::Idle, Context::park)),
            (Instruction::SetMode { mode }, _) => Ok(self.set_mode(mode)),
            (Instruction::State, _) => Ok(self.state()),
            (Instruction::Counts, _) => Ok(self.counts()),
            _ => Err(Refusal::State),
        }
    }
}
