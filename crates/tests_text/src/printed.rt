// Lines printed.
use context::Refusal;
use engine::Answer;
use std::alloc::Global;
use std::process::Abort;
use std::test::Fail;
use text::{Outcome, RunFault, print_line};

// The outcome is printed so.
fn shown(rt: &impl Abort, heap: Global, outcome: Outcome, line: &[u8]) -> Result<(), Fail> {
    let out = print_line(heap, outcome)?;
    assert_eq!(rt; out.as_slice(), line);
    Ok(())
}

#[test]
fn granted(rt: HostRuntime) -> Result<(), Fail> {
    let heap = rt.alloc();
    shown(&rt, heap, Ok(Answer::Done), b"ok\n")?;
    shown(&rt, heap, Ok(Answer::Marker(0)), b"ok 0\n")?;
    shown(
        &rt,
        heap,
        Ok(Answer::Register {
            image: 7,
            nat: true,
        }),
        b"ok 7 1\n",
    )?;
    shown(
        &rt,
        heap,
        Ok(Answer::Flushed {
            bsp: 4,
            rnat: 18446744073709551615,
        }),
        b"ok 4 18446744073709551615\n",
    )?;
    shown(
        &rt,
        heap,
        Ok(Answer::Counts {
            written: 10,
            read: 9,
        }),
        b"ok 10 9\n",
    )
}

#[test]
fn refused(rt: HostRuntime) -> Result<(), Fail> {
    let heap = rt.alloc();
    shown(
        &rt,
        heap,
        Err(RunFault {
            refusal: Refusal::Unreadable,
            line: 3,
        }),
        b"no 1\n",
    )?;
    shown(
        &rt,
        heap,
        Err(RunFault {
            refusal: Refusal::Host,
            line: 3,
        }),
        b"no 17\n",
    )
}

// A state is told by its number, whatever number that is.
#[test]
fn states(rt: HostRuntime) -> Result<(), Fail> {
    let heap = rt.alloc();
    shown(
        &rt,
        heap,
        Ok(Answer::State {
            state: 3,
            context: 1,
            base: 2,
            marker: 3,
            bsp: 5,
        }),
        b"ok 3 1 2 3 5\n",
    )?;
    shown(
        &rt,
        heap,
        Ok(Answer::State {
            state: 18446744073709551615,
            context: 1,
            base: 2,
            marker: 3,
            bsp: 5,
        }),
        b"ok 18446744073709551615 1 2 3 5\n",
    )
}
