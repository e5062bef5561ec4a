// Sessions: bytes in, bytes out.
ghost use Rattle.std.specs.Prelude.{◌≡◌, ◌+◌, ◌≤◌, ◌++◌, length, IfOk, IfErr, OnOk};
ghost use Rattle.text.specs.declared.session.SessionError.TheVariants.{Memory, Refused};
ghost use Rattle.text.specs.Outcomes.{fault_at, printed, Tells, Ends, Short};
ghost use Rattle.text.specs.Printed.{Appends};
ghost use Rattle.engine.specs.Hosts.{hosted};
ghost use Rattle.text.specs.Lines.{end_bytes, lines_of};
ghost use Rattle.text.specs.Sessions.{LineRuns, Runs, SessionRuns, SessionPrints, IsLawfulHost, NotRun, LeftAlone, printed_all};

use super::lines::first_line;
use super::printing::{push_answer, push_end, push_refusal};
use super::reading::read_line;
use context::Refusal;
use engine::{Answer, Engine};
use register::{Kind, Slot};
use std::alloc::{AllocError, Global};
use store::Store;
use thiserror::Error;

// The longest answer is five numbers; with its word, its spaces and its end byte it has fewer bytes.
const LONGEST_ANSWER: usize = 112;

// A refusal, with the number of its line from 1. A refusal for a shut word holds the fault of the move, and that the
// fault of the store.
#[derive(Clone, Copy, Debug, PartialEq, Eq, Error)]
#[error("line {line} is refused ({})", .refusal.number())]
pub struct RunFault {
    pub refusal: Refusal,
    pub line: u64,
}

// What a line comes to.
pub type Outcome = Result<Answer, RunFault>;

// Why a session is not run: there is no memory for its answers, or the host's register count or store is not lawful.
#[derive(Clone, Copy, Debug, PartialEq, Eq, Error)]
pub enum SessionError {
    #[error("no memory for the answers")]
    Memory,
    #[error("the host is refused ({})", .0.number())]
    Refused(Refusal),
}

// Both by hand, so that a clause knows the error that `?` makes.
impl From<AllocError> for SessionError {
    ghost from_gives = { λ _ e. e ≡ Memory };

    fn from(_error: AllocError) -> SessionError {
        SessionError::Memory
    }
}

impl From<Refusal> for SessionError {
    ghost from_gives = { λ refusal e. e ≡ Refused refusal };

    fn from(refusal: Refusal) -> SessionError {
        SessionError::Refused(refusal)
    }
}

// One line, given without its end byte. Here and below the slots and the store are two parameters, since no struct holds
// the lent slots.
pub fn execute_line<K: Kind, S: Store>(
    engine: &mut Engine,
    slots: &mut [Slot<K>],
    store: &mut S,
    text: &[u8],
    line: u64,
) -> Outcome
    ensures { LineRuns K.zero_content K.image_of K.content_of K.sum_of
        (hosted engine.old.machine slots.old (S.meaning store.old))
        text.now line result (hosted engine.new.machine slots.new (S.meaning store.new)) }
{
    let on_line = |refusal| -> RunFault
        ensures { result ≡ fault_at refusal line }
    { RunFault { refusal, line } };
    let instruction = read_line(text).ok_or(Refusal::Unreadable).map_err(on_line)?;
    let answer = engine.step(slots, store, instruction).map_err(on_line)?;
    Ok(answer)
}

// Executes the lines of the input, one after another: an outcome for each.
fn execute_lines<K: Kind, S: Store>(
    heap: Global,
    engine: &mut Engine,
    slots: &mut [Slot<K>],
    store: &mut S,
    input: &[u8],
) -> Result<Vec<Outcome>, AllocError>
    ensures { IfOk result (λ v. Runs K.zero_content K.image_of K.content_of K.sum_of
        (hosted engine.old.machine slots.old (S.meaning store.old)) (lines_of input.now) 1 v.items
        (hosted engine.new.machine slots.new (S.meaning store.new))) }
{
    let mut outcomes = Vec::with_capacity(heap, lines_at_most(input))?;
    // A loop by hand: over `split_inclusive` the check refuses the module that it makes for a `for` in a generic function.
    let mut number: u64 = 0;
    let mut rest = input;
    while !rest.is_empty() {
        let (line, after) = first_line(rest);
        number += 1;
        outcomes.push(execute_line(engine, slots, store, line, number))?;
        rest = after;
    }
    Ok(outcomes)
}

// How many lines an input has at most.
#[tactic(auto, using(crate::proofs::Ends::lines_few))]
fn lines_at_most(input: &[u8]) -> usize
    ensures ends { result ≡ end_bytes input.now + 1 }
    ensures lines { length (lines_of input.now) ≤ result }
{
    input.iter().filter(|b| **b == b'\n').count() + 1
}

// Prints an outcome. No `Display`, for the reason that `printing` gives.
pub fn push_outcome(out: &mut Vec<u8>, outcome: Outcome) -> Result<(), AllocError>
    ensures { Appends out.old out.new (printed outcome) result }
{
    match outcome {
        Ok(answer) => push_answer(out, answer),
        Err(fault) => push_refusal(out, fault.refusal),
    }
}

// The printed line of an outcome, in memory of its own.
pub fn print_line(heap: Global, outcome: Outcome) -> Result<Vec<u8>, AllocError>
    ensures line { IfOk result (λ v. v.items ≡ printed outcome) }
    ensures tells { Tells }
    ensures ends { Ends }
    ensures short { Short }
{
    let mut out = Vec::with_capacity(heap, LONGEST_ANSWER)?;
    push_outcome(&mut out, outcome)?;
    Ok(out)
}

// Prints the outcomes of a session, and the end line.
pub fn print_session(out: &mut Vec<u8>, outcomes: &[Outcome]) -> Result<(), AllocError>
    ensures { OnOk result (out.new.items ≡ out.old.items ++ printed_all outcomes.now) }
{
    for outcome in outcomes {
        push_outcome(out, *outcome)?;
    }
    let granted = outcomes.iter().filter(|o| o.is_ok()).count();
    push_end(out, granted as u64, (outcomes.len() - granted) as u64)
}

// Runs the lines of the input on a new engine, and gives the outcome of each, with faults.
pub fn run_outcomes<K: Kind, S: Store>(
    heap: Global,
    slots: &mut [Slot<K>],
    store: &mut S,
    input: &[u8],
) -> Result<Vec<Outcome>, SessionError>
    ensures ran { IfOk result (λ v. SessionRuns K.zero_content K.image_of K.content_of K.sum_of
        slots.old (S.meaning store.old) input.now v.items slots.new (S.meaning store.new)) }
    ensures lawful { OnOk result (IsLawfulHost slots.old (S.meaning store.old)) }
    ensures not_run { IfErr result (NotRun slots.old (S.meaning store.old)) }
    ensures untouched { IfErr result (λ e. LeftAlone e slots.old (S.meaning store.old) slots.new (S.meaning store.new)) }
{
    let mut engine = Engine::new(slots.len() as u64, store.len())?;
    let outcomes = execute_lines(heap, &mut engine, slots, store, input)?;
    Ok(outcomes)
}

// Runs the lines of the input on a new engine, and gives what is printed: an answer for each line, and the end line.
pub fn run_session<K: Kind, S: Store>(
    heap: Global,
    slots: &mut [Slot<K>],
    store: &mut S,
    input: &[u8],
) -> Result<Vec<u8>, SessionError>
    ensures ran { IfOk result (λ v. SessionPrints K.zero_content K.image_of K.content_of K.sum_of
        slots.old (S.meaning store.old) input.now v.items slots.new (S.meaning store.new)) }
    ensures lawful { OnOk result (IsLawfulHost slots.old (S.meaning store.old)) }
    ensures not_run { IfErr result (NotRun slots.old (S.meaning store.old)) }
    ensures untouched { IfErr result (λ e. LeftAlone e slots.old (S.meaning store.old) slots.new (S.meaning store.new)) }
{
    let room = lines_at_most(input)
        .saturating_add(1)
        .saturating_mul(LONGEST_ANSWER);
    let mut out = Vec::with_capacity(heap, room)?;
    let outcomes = run_outcomes(heap, slots, store, input)?;
    print_session(&mut out, &outcomes)?;
    Ok(out)
}
