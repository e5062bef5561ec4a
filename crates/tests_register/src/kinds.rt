// Figures for images and sums.
use register::{Kind, Pair, Word};

// The image of the pair that a word gives.
fn through(word: u64) -> u64 {
    Pair::of_word(word).image()
}

// The image of the sum of the pairs that two words give.
fn added(word: u64, other: u64) -> u64 {
    Pair::of_word(word).sum(Pair::of_word(other)).image()
}

#[test]
fn words_are_their_images(rt: HostRuntime) {
    assert_eq!(rt; Word::zero().image(), 0);
    assert_eq!(rt;
        Word::of_word(0xFFFF_FFFF_FFFF_FFFF).image(),
        0xFFFF_FFFF_FFFF_FFFF
    );
}

#[test]
fn word_sums_wrap(rt: HostRuntime) {
    let last = Word {
        value: 0xFFFF_FFFF_FFFF_FFFF,
    };
    assert_eq!(rt; last.sum(Word { value: 1 }).image(), 0);
    assert_eq!(rt; last.sum(last).image(), 0xFFFF_FFFF_FFFF_FFFE);
}

#[test]
fn first_lane_is_low(rt: HostRuntime) {
    assert_eq!(rt; Pair::zero().image(), 0);
    let pair = Pair {
        first: 1.0,
        second: -2.5,
    };
    assert_eq!(rt; pair.image(), 0xC020_0000_3F80_0000);
}

#[test]
fn every_nan_is_one(rt: HostRuntime) {
    assert_eq!(rt; through(0x7FC0_0000), 0x7FC0_0000);
    assert_eq!(rt; through(0x7F80_0001), 0x7FC0_0000);
    assert_eq!(rt; through(0xFFFF_FFFF_FFC0_0000), 0x7FC0_0000_7FC0_0000);
    let not_a_number = 0.0 / 0.0;
    let pair = Pair {
        first: 0.0,
        second: not_a_number,
    };
    assert_eq!(rt; pair.image(), 0x7FC0_0000_0000_0000);
}

#[test]
fn zeros_keep_their_signs(rt: HostRuntime) {
    assert_eq!(rt; through(0x8000_0000), 0x8000_0000);
    assert_eq!(rt; added(0x8000_0000, 0x8000_0000), 0x8000_0000);
    assert_eq!(rt; added(0x8000_0000, 0), 0);
}

#[test]
fn infinities(rt: HostRuntime) {
    assert_eq!(rt; through(0xFF80_0000_7F80_0000), 0xFF80_0000_7F80_0000);
    // 1.0 in the first lanes, and opposite infinities in the second.
    assert_eq!(rt;
        added(0xFF80_0000_3F80_0000, 0x7F80_0000_3F80_0000),
        0x7FC0_0000_4000_0000
    );
    // The largest number, twice.
    assert_eq!(rt; added(0x7F7F_FFFF, 0x7F7F_FFFF), 0x7F80_0000);
}

#[test]
fn subnormals(rt: HostRuntime) {
    assert_eq!(rt; through(0x007F_FFFF), 0x007F_FFFF);
    assert_eq!(rt; added(0x007F_FFFF, 1), 0x0080_0000);
    assert_eq!(rt;
        added(0x807F_FFFF_0000_0000, 0x0000_0001_0000_0000),
        0x807F_FFFE_0000_0000
    );
}

// 1.0 and a little more: the neighbours of 1.0 above are 2^-23 apart.
#[test]
fn sums_round_to_nearest_even(rt: HostRuntime) {
    assert_eq!(rt; added(0x3F80_0000, 0x3300_0000), 0x3F80_0000, "2^-25");
    assert_eq!(rt;
        added(0x3F80_0000, 0x3380_0000),
        0x3F80_0000,
        "2^-24, a tie"
    );
    assert_eq!(rt; added(0x3F80_0000, 0x33C0_0000), 0x3F80_0001, "3 * 2^-25");
    assert_eq!(rt;
        added(0x3F80_0001, 0x3380_0000),
        0x3F80_0002,
        "2^-24 above 1.0 + 2^-23, a tie"
    );
}
