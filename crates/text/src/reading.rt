// Reading a line: a letter, then for each operand one space and a decimal number.
ghost use Rattle.std.specs.Prelude.{◌≡◌, Some, None};
ghost use Rattle.text.specs.Numbers.{OperandOf};
ghost use Rattle.text.specs.Spelling.{spelling, Operands64, Unreadable, InstructionOf, OperandsOf, Apart};

use super::numbers::number;
use arrayvec::ArrayVec;
use engine::Instruction;

// One operand behind its space, and what follows it.
fn operand(text: &[u8]) -> Option<(u64, &[u8])>
    ensures { OperandOf text.now result }
{
    match text {
        [b' ', digits @ ..] => number(digits),
        _ => None,
    }
}

// The operands, three at most, to the end of the line.
fn read_operands(text: &[u8]) -> Option<ArrayVec<u64, 3>>
    ensures { OperandsOf text.now result }
{
    let mut operands = ArrayVec::new();
    let mut rest = text;
    while !rest.is_empty() {
        let (n, after) = operand(rest)?;
        operands.try_push(n).ok()?;
        rest = after;
    }
    Some(operands)
}

// The instruction that has this letter and these operands.
fn instruction(letter: u8, operands: &[u64]) -> Option<Instruction>
    ensures { InstructionOf letter operands.now result }
{
    match (char::from(letter), operands) {
        ('b', &[context, start, size]) => Some(Instruction::Begin {
            context,
            start,
            size,
        }),
        ('e', &[context]) => Some(Instruction::Resume { context }),
        ('x', &[context]) => Some(Instruction::Retire { context }),
        ('a', &[sof, sol, sor]) => Some(Instruction::Alloc { sof, sol, sor }),
        ('c', []) => Some(Instruction::Call),
        ('r', []) => Some(Instruction::Return),
        ('v', []) => Some(Instruction::Cover),
        ('w', &[register, word, nat]) => Some(Instruction::Write {
            register,
            word,
            nat,
        }),
        ('y', &[target, source]) => Some(Instruction::Copy { target, source }),
        ('d', &[target, left, right]) => Some(Instruction::Add {
            target,
            left,
            right,
        }),
        ('g', &[register]) => Some(Instruction::Read { register }),
        ('o', []) => Some(Instruction::Rotate),
        ('z', []) => Some(Instruction::ResetRotation),
        ('p', []) => Some(Instruction::Previous),
        ('q', &[word]) => Some(Instruction::SetPrevious { word }),
        ('u', []) => Some(Instruction::Restore),
        ('f', []) => Some(Instruction::Flush),
        ('s', []) => Some(Instruction::EarlySpill),
        ('h', []) => Some(Instruction::EarlyFill),
        ('l', &[words]) => Some(Instruction::Load { words }),
        ('k', []) => Some(Instruction::Park),
        ('n', &[mode]) => Some(Instruction::SetMode { mode }),
        ('i', []) => Some(Instruction::State),
        ('j', []) => Some(Instruction::Counts),
        _ => None,
    }
}

// The instruction that a line spells, given without its end byte; none where it is unreadable.
pub fn read_line(line: &[u8]) -> Option<Instruction>
    ensures spelled { elim result [ Some i ↦ (line.now ≡ spelling i) × Operands64 i | None ↦ Unreadable line.now ] }
    ensures apart { Apart }
{
    let [letter, rest @ ..] = line else {
        return None;
    };
    instruction(*letter, &read_operands(rest)?)
}
