// A region from word 64 on; every fifth position has its NaT bit set.
use address::nats_below;
use moves::{Counts, Cursor, MoveFault, Movement, Place};
use register::{Kind, Pair, Slot, Word, put_register, register_at};
use std::process::Abort;
use store::{Cause, FlatStore, Store, StoreFault};

// Both lanes of a pair are numbers.
fn image_of(position: u64) -> u64 {
    0x3F80_0000_0000_0001 + position % 0x1_0000
}

fn nat_of(position: u64) -> bool {
    position % 5 == 0
}

// The NaT bits of the positions 0 to 62, 63 to 125 and 126 to 188.
fn group_nats(group: u64) -> u64 {
    match group {
        1 => 0x1084_2108_4210_8421,
        2 => 0x4210_8421_0842_1084,
        _ => 0x0842_1084_2108_4210,
    }
}

fn check_word<S: Store>(rt: &impl Abort, store: &S, word: u64, value: u64, place: &str) {
    assert_eq!(rt; store.read(word).unwrap_or(!value), value, "{place}");
}

fn cursor_at(context: u64, word: u64) -> Cursor {
    Cursor {
        context,
        start: 64,
        bspstore: word,
        rnat: nats_below(group_nats(1), word),
        counts: Counts {
            written: 0,
            read: 0,
        },
    }
}

// 102 words from word 64 + offset on, of which one or two are collections.
fn trip<K: Kind>(rt: &impl Abort, slots: &mut [Slot<K>], offset: u8) {
    let low = u64::from(offset);
    for position in low..low + 102 {
        let content = K::of_word(image_of(position));
        let nat = nat_of(position);
        put_register(slots, position, Slot { content, nat });
    }
    let mut memory = [0u64; 512];
    let mut store = FlatStore::new(&mut memory);
    let mut at = cursor_at(0, low + 64);
    let end = low + 166;
    assert!(rt;
        at.spill_and_refill(slots, &mut store, u32::from(offset) + 166)
            .is_ok()
    );
    assert_eq!(rt; at.bspstore, end);
    assert_eq!(rt; at.rnat, nats_below(group_nats(end / 64), end));
    assert_eq!(rt; at.counts.written, 102);
    check_word(rt, &store, 127, group_nats(1), "the first collection");
    check_word(rt, &store, 130, image_of(65), "past the first collection");
    if end > 191 {
        check_word(rt, &store, 191, group_nats(2), "the second collection");
    }
    check_word(rt, &store, low + 63, 0, "below");
    check_word(rt, &store, end, 0, "above");
    for position in low..low + 102 {
        let register = register_at(slots, position);
        assert_eq!(rt; register.content.image(), image_of(position));
        assert_eq!(rt; register.nat, nat_of(position));
    }
}

fn at_every_alignment<K: Kind>(rt: &impl Abort, slots: &mut [Slot<K>]) {
    for offset in 0..64 {
        trip(rt, slots, offset);
    }
}

#[test]
fn words_at_every_alignment(rt: HostRuntime) {
    let mut slots = [Slot::<Word>::cleared(); 128];
    at_every_alignment(&rt, &mut slots);
}

#[test]
fn pairs_at_every_alignment(rt: HostRuntime) {
    let mut slots = [Slot::<Pair>::cleared(); 128];
    at_every_alignment(&rt, &mut slots);
}

// A store that ends after the first collection.
#[test]
fn stops_at_the_end(rt: HostRuntime) {
    let slots = [Slot {
        content: Word { value: 7 },
        nat: true,
    }; 96];
    let mut memory = [0u64; 128];
    let mut store = FlatStore::new(&mut memory);
    let mut at = cursor_at(3, 120);
    assert_eq!(rt;
        at.spill_until(&slots, &mut store, 140),
        Err(MoveFault {
            fault: StoreFault {
                cause: Cause::Beyond,
                word: 128
            },
            place: Place {
                movement: Movement::Spill,
                context: 3,
                position: 63
            }
        })
    );
    assert_eq!(rt; at.bspstore, 128);
    assert_eq!(rt; at.rnat, 0);
    check_word(&rt, &store, 126, 7, "the last register");
}
