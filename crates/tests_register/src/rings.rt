// Rings of four words, of three pairs and of nothing.
use register::{Kind, Pair, Slot, Word, clear_registers, put_register, register_at};
use std::process::Abort;

fn word(value: u64, nat: bool) -> Slot<Word> {
    let content = Word { value };
    Slot { content, nat }
}

// By its image, since `==` takes -0.0 for 0.0.
fn check_pair(rt: &impl Abort, register: Slot<Pair>, image: u64, nat: bool) {
    assert_eq!(rt; register.content.image(), image);
    assert_eq!(rt; register.nat, nat);
}

#[test]
fn ring_of_words(rt: HostRuntime) {
    let mut slots = [word(1, false); 4];
    put_register(&mut slots, 6, word(7, true));
    assert_eq!(rt; register_at(&slots, 6), word(7, true));
    // Four positions below.
    assert_eq!(rt; register_at(&slots, 2), word(7, true));
    assert_eq!(rt; register_at(&slots, 5), word(1, false));
    assert_eq!(rt; register_at(&slots, 7), word(1, false));
}

#[test]
fn last_position(rt: HostRuntime) {
    let mut slots = [Slot::cleared(); 4];
    put_register(&mut slots, 0xFFFF_FFFF_FFFF_FFFF, word(7, true));
    assert_eq!(rt; register_at(&slots, 3), word(7, true));
}

#[test]
fn cleared_words(rt: HostRuntime) {
    let mut slots = [word(7, true); 4];
    clear_registers(&mut slots, 7, 9);
    assert_eq!(rt; register_at(&slots, 6), word(7, true));
    assert_eq!(rt; register_at(&slots, 7), word(0, false));
    assert_eq!(rt; register_at(&slots, 8), word(0, false));
    assert_eq!(rt; register_at(&slots, 9), word(7, true));
}

#[test]
fn nothing_cleared(rt: HostRuntime) {
    let mut slots = [word(7, true); 2];
    clear_registers(&mut slots, 5, 5);
    clear_registers(&mut slots, 5, 4);
    assert_eq!(rt; register_at(&slots, 4), word(7, true));
    assert_eq!(rt; register_at(&slots, 5), word(7, true));
}

#[test]
fn ring_of_pairs(rt: HostRuntime) {
    let mut slots = [Slot::cleared(); 3];
    let content = Pair {
        first: -0.0,
        second: 1.0,
    };
    put_register(&mut slots, 5, Slot { content, nat: true });
    check_pair(&rt, register_at(&slots, 8), 0x3F80_0000_8000_0000, true);
    check_pair(&rt, register_at(&slots, 4), 0, false);
    clear_registers(&mut slots, 2, 3);
    check_pair(&rt, register_at(&slots, 5), 0, false);
}

#[test]
fn empty_ring(rt: HostRuntime) {
    let mut slots: [Slot<Word>; 0] = [];
    put_register(&mut slots, 3, word(7, true));
    clear_registers(&mut slots, 0, 9);
    assert_eq!(rt; register_at(&slots, 3), word(0, false));
}
