// Printing: `ok` and the answers, or `no` and the number of the refusal (for a shut word also the word).
// No `Display` here: `write!` does not promise that a call succeeds where the vector has room.
ghost use Rattle.std.specs.Prelude.{[], ◌∷◌, ◌++◌, decimal};
ghost use Rattle.text.specs.Numbers.{spaced};
ghost use Rattle.text.specs.Printed.{Appends, printed_answer, printed_refusal, printed_end};

use context::Refusal;
use engine::Answer;
use std::alloc::AllocError;

// Writes bytes.
fn push_bytes(out: &mut Vec<u8>, bytes: &[u8]) -> Result<(), AllocError>
    ensures { Appends out.old out.new bytes.now result }
{
    out.extend_from_slice(bytes)
}

// Writes a byte.
fn push_byte(out: &mut Vec<u8>, byte: u8) -> Result<(), AllocError>
    ensures { Appends out.old out.new (byte ∷ []) result }
{
    out.push(byte)?;
    Ok(())
}

// Writes a number in decimal; one digit, as most numbers have, without the buffer that the digits of others are made in.
fn push_number(out: &mut Vec<u8>, n: u64) -> Result<(), AllocError>
    ensures { Appends out.old out.new (decimal n) result }
{
    if n < 10 {
        return push_byte(out, b'0' + n as u8);
    }
    push_bytes(out, itoa::Buffer::new().format(n).as_bytes())
}

// Writes a space and a number.
fn push_value(out: &mut Vec<u8>, n: u64) -> Result<(), AllocError>
    ensures { Appends out.old out.new (spaced (n ∷ [])) result }
{
    push_byte(out, b' ')?;
    push_number(out, n)
}

// Writes a line: a word, values and the end byte.
fn push_line(out: &mut Vec<u8>, word: &[u8], values: &[u64]) -> Result<(), AllocError>
    ensures { Appends out.old out.new (word.now ++ (spaced values.now ++ (10 ∷ []))) result }
{
    push_bytes(out, word)?;
    for v in values {
        push_value(out, *v)?;
    }
    push_byte(out, b'\n')
}

// Prints an answer.
pub fn push_answer(out: &mut Vec<u8>, answer: Answer) -> Result<(), AllocError>
    ensures { Appends out.old out.new (printed_answer answer) result }
{
    match answer {
        Answer::Done => push_line(out, b"ok", &[]),
        Answer::Marker(word) => push_line(out, b"ok", &[word]),
        Answer::Register { image, nat } => push_line(out, b"ok", &[image, u64::from(nat)]),
        Answer::Flushed { bsp, rnat } => push_line(out, b"ok", &[bsp, rnat]),
        Answer::State {
            state,
            context,
            base,
            marker,
            bsp,
        } => push_line(out, b"ok", &[state, context, base, marker, bsp]),
        Answer::Counts { written, read } => push_line(out, b"ok", &[written, read]),
    }
}

// Prints a refusal.
pub fn push_refusal(out: &mut Vec<u8>, refusal: Refusal) -> Result<(), AllocError>
    ensures { Appends out.old out.new (printed_refusal refusal) result }
{
    let number = refusal.number();
    match refusal {
        Refusal::Shut(fault) => push_line(out, b"no", &[number, fault.fault.word]),
        _ => push_line(out, b"no", &[number]),
    }
}

// Prints the last line: how many lines were granted, and how many refused.
pub fn push_end(out: &mut Vec<u8>, granted: u64, refused: u64) -> Result<(), AllocError>
    ensures { Appends out.old out.new (printed_end granted refused) result }
{
    push_line(out, b"end", &[granted, refused])
}
