// rse-run: reads a session from standard input, runs it on 96 slots of the kind word over a paged store of 4,096 words,
// and prints the answers (docs/RULES.md, "The runner").
#![tactic(auto)]

use register::{Slot, Word};
use std::io::{Read, Write};
use std::{array, io};
use store::PagedStore;
use text::run_session;

// Bytes of a session that are executed; what follows is not.
const LONGEST_INPUT: usize = 65536;

// Standard input, up to one byte past the limit.
fn read_input(rt: &HostRuntime) -> io::Result<Vec<u8>> {
    let mut input = Vec::new(rt.alloc());
    rt.stdin()
        .take(LONGEST_INPUT as u64 + 1)
        .read_to_end(&mut input)?;
    Ok(input)
}

fn run(rt: &HostRuntime, memory: &mut [u64]) -> anyhow::Result<()> {
    let input = read_input(rt)?;
    let (session, rest) = input.split_at(input.len().min(LONGEST_INPUT));
    if !rest.is_empty() {
        eprintln!(rt; "rse-run: the input was cut after {LONGEST_INPUT} bytes")?;
    }
    // Page p lies in frame 63 − p.
    let frames: [u64; 64] = array::from_fn(|page| 63 - page as u64);
    let mut store = PagedStore::new(rt.alloc(), memory, &frames)?;
    let mut slots = [Slot::<Word>::cleared(); 96];
    let printed = run_session(rt.alloc(), &mut slots, &mut store, session)?;
    rt.stdout().write_all(&printed)?;
    Ok(())
}

fn main(rt: HostRuntime) -> anyhow::Result<()> {
    let mut memory = [0u64; 4096];
    run(&rt, &mut memory)
}
