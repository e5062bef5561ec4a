// Each store on a few examples.
use crate::{HalfStore, echo};
use std::alloc::Global;
use std::process::Abort;
use std::test::Fail;
use store::{Cause, FlatStore, HostRefused, PagedStore, Store, StoreFault, check_frames};

#[test]
fn flat_words(rt: HostRuntime) {
    let mut memory = [0u64; 128];
    let mut flat = FlatStore::new(&mut memory);
    assert_eq!(rt; flat.len(), 128);
    assert_eq!(rt; flat.write(127, 9), Ok(()));
    assert_eq!(rt; flat.read(127), Ok(9));
    assert_eq!(rt; flat.read(126), Ok(0));
    assert_eq!(rt; flat.read(128), Err(StoreFault::new(Cause::Beyond, 128)));
    assert!(rt; flat.is_open(127) && !flat.is_open(128));
    assert_eq!(rt; flat.set_door(1, false), Err(Cause::Fixed));
    assert_eq!(rt; flat.set_door(2, false), Err(Cause::Beyond));
}

// Page 0 lies in frame 2, page 1 in frame 0 and page 2 in frame 1.
fn through_frames(rt: &impl Abort, heap: Global, memory: &mut [u64]) -> Result<(), Fail> {
    let mut paged = PagedStore::new(heap, memory, &[2, 0, 1])?;
    assert_eq!(rt; paged.len(), 192);
    assert_eq!(rt; paged.read(2), Ok(5));
    assert_eq!(rt; paged.write(64, 7), Ok(()));
    assert_eq!(rt; paged.write(191, 8), Ok(()));
    assert_eq!(rt; paged.read(64), Ok(7));
    Ok(())
}

#[test]
fn permuted_frames(rt: HostRuntime) -> Result<(), Fail> {
    let mut memory = [0u64; 192];
    memory[130] = 5;
    through_frames(&rt, rt.alloc(), &mut memory)?;
    assert!(rt; memory[0] == 7 && memory[127] == 8 && memory[130] == 5);
    Ok(())
}

#[test]
fn doors(rt: HostRuntime) -> Result<(), Fail> {
    let mut memory = [0u64; 128];
    let mut paged = PagedStore::new(rt.alloc(), &mut memory, &[1, 0])?;
    assert_eq!(rt; paged.set_door(1, false), Ok(()));
    assert_eq!(rt; paged.write(64, 1), Err(StoreFault::new(Cause::Shut, 64)));
    assert_eq!(rt; paged.read(127), Err(StoreFault::new(Cause::Shut, 127)));
    assert_eq!(rt; paged.read(63), Ok(0));
    assert_eq!(rt; paged.set_door(2, false), Err(Cause::Beyond));
    assert_eq!(rt; paged.set_door(1, true), Ok(()));
    assert_eq!(rt; echo(&mut paged, 64, 3), Ok(3));
    Ok(())
}

#[test]
fn refused_frames(rt: HostRuntime) -> Result<(), Fail> {
    assert_eq!(rt; check_frames(128, &[1, 0]), Ok(()));
    assert_eq!(rt; check_frames(128, &[1, 1]), Err(HostRefused));
    assert_eq!(rt; check_frames(128, &[0, 2]), Err(HostRefused));
    assert_eq!(rt; check_frames(128, &[0]), Err(HostRefused));
    assert_eq!(rt; check_frames(100, &[0]), Err(HostRefused));
    let text = format!(in rt.alloc(); "{HostRefused}")?;
    assert_eq!(rt;
        text.as_str(),
        "the host offers what no store or engine can be made of"
    );
    let mut memory = [0u64; 128];
    let paged = PagedStore::new(rt.alloc(), &mut memory, &[1, 1])?;
    assert_eq!(rt; paged.len(), 0);
    assert_eq!(rt; paged.read(0), Err(StoreFault::new(Cause::Beyond, 0)));
    Ok(())
}

#[test]
fn halves(rt: HostRuntime) -> Result<(), Fail> {
    let mut halves = HalfStore::new(rt.alloc(), 64)?;
    assert_eq!(rt;
        echo(&mut halves, 63, 0x0123_4567_89ab_cdef),
        Ok(0x0123_4567_89ab_cdef)
    );
    assert_eq!(rt; halves.read(62), Ok(0));
    assert_eq!(rt;
        halves.write(64, 1),
        Err(StoreFault::new(Cause::Beyond, 64))
    );
    assert_eq!(rt; halves.set_door(0, false), Err(Cause::Fixed));
    Ok(())
}
