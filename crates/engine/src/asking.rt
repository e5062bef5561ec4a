// Are an instruction's operands in range?
ghost use Rattle.std.specs.Prelude.{◌≡◌};
ghost use Rattle.engine.specs.Rules.{is_register, in_range};

use super::instructions::Instruction;
use context::LONGEST_STORE;

// A register of the stack: r32 to r127.
fn is_register(register: u64) -> bool
    ensures { result ≡ is_register register }
{
    register >= 32 && register <= 127
}

pub(crate) fn in_range(instruction: Instruction) -> bool
    ensures { result ≡ in_range instruction }
{
    match instruction {
        Instruction::Begin {
            context,
            start,
            size,
        } => context <= 7 && start <= LONGEST_STORE && size <= LONGEST_STORE,
        Instruction::Resume { context } | Instruction::Retire { context } => context <= 7,
        Instruction::Alloc { sof, sol, sor } => sof <= 127 && sol <= 127 && sor <= 15,
        Instruction::Write {
            register,
            word: _,
            nat,
        } => is_register(register) && nat <= 1,
        Instruction::Copy { target, source } => is_register(target) && is_register(source),
        Instruction::Add {
            target,
            left,
            right,
        } => is_register(target) && is_register(left) && is_register(right),
        Instruction::Read { register } => is_register(register),
        Instruction::Load { words } => words <= 2047,
        Instruction::SetMode { mode } => mode <= 3,
        Instruction::Call
        | Instruction::Return
        | Instruction::Cover
        | Instruction::Rotate
        | Instruction::ResetRotation
        | Instruction::Previous
        | Instruction::SetPrevious { word: _ }
        | Instruction::Restore
        | Instruction::Flush
        | Instruction::EarlySpill
        | Instruction::EarlyFill
        | Instruction::Park
        | Instruction::State
        | Instruction::Counts => true,
    }
}
