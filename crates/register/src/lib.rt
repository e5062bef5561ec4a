// Kinds of register, and the ring of slots that holds registers of one kind.
#![tactic(auto)]

ghost use Rattle.std.specs.Prelude.{◌≡◌, ℕ, ◌+◌, ◌*◌, ◌/◌, ◌%◌, ◌^◌, ◌<◌, refl};
ghost use Rattle.register.specs.Contents.{word_of, word_sum, pair_of, pair_image, pair_sum, lane_bits};
ghost use Rattle.register.specs.KindLaws.{word_restored, word_bounded, pair_restored, pair_blank, pair_bounded};

use std::num::{f32_from_bits_with_nan, f32_to_bits_with_nan};

mod pair;
mod ring;
mod word;

pub use pair::Pair;
pub use ring::{clear_registers, put_register, register_at};
pub use word::Word;

// What a register can hold: a zero, a 64-bit image of each content, a content for each 64-bit word, and a sum.
pub trait Kind: Copy {
    ghost zero_content: { Self };

    ghost image_of: { Self → ℕ };

    ghost content_of: { ℕ → Self };

    ghost sum_of: { Self → Self → Self };

    fn zero() -> Self
        ensures { result ≡ zero_content };

    fn image(self) -> u64
        ensures { result ≡ image_of self };

    fn of_word(word: u64) -> Self
        ensures { result ≡ content_of word };

    fn sum(self, other: Self) -> Self
        ensures { result ≡ sum_of self other };

    ghost restored: { (c : Self) → content_of (image_of c) ≡ c };

    ghost blank: { image_of zero_content ≡ 0 };

    ghost bounded: { (c : Self) → image_of c < 2 ^ 64 };
}

// A register: its content and its NaT bit.
#[derive(Clone, Copy, Debug, PartialEq, Eq)]
pub struct Slot<C> {
    pub content: C,
    pub nat: bool,
}

// The image of a word is the word itself; sums are modulo 2^64.
impl Kind for Word {
    ghost zero_content = { word_of 0 };

    ghost image_of = { λ c. c.value };

    ghost content_of = { word_of };

    ghost sum_of = { word_sum };

    ghost restored = { word_restored };

    ghost blank = { refl };

    ghost bounded = { word_bounded };

    fn zero() -> Word {
        Word { value: 0 }
    }

    fn image(self) -> u64 {
        self.value
    }

    fn of_word(word: u64) -> Word {
        Word { value: word }
    }

    fn sum(self, other: Word) -> Word {
        Word {
            value: self.value.wrapping_add(other.value),
        }
    }
}

// The low 32 bits of the image are the bits of the first lane. Every NaN has the bits 0x7FC00000.
#[tactic(auto, using(crate::specs::Lanes::lane_bits_lem), unfolding(crate::specs::Contents::pair_of_bits))]
impl Kind for Pair {
    ghost zero_content = { pair_of 0 };

    ghost image_of = { pair_image };

    ghost content_of = { pair_of };

    ghost sum_of = { pair_sum };

    ghost restored = { pair_restored };

    ghost blank = { pair_blank };

    ghost bounded = { pair_bounded };

    fn zero() -> Pair {
        Pair {
            first: 0.0,
            second: 0.0,
        }
    }

    fn image(self) -> u64 {
        let low = f32_to_bits_with_nan(self.first);
        let high = f32_to_bits_with_nan(self.second);
        u64::from(low) + 0x1_0000_0000 * u64::from(high)
    }

    fn of_word(word: u64) -> Pair
        ensures content { result ≡ pair_of word }
        ensures image { pair_image result ≡ lane_bits (word % 2 ^ 32) + 2 ^ 32 * lane_bits (word / 2 ^ 32) }
    {
        // `&` and `>>` in place of `%` and `/`: tried, the clause `image` stays open.
        Pair {
            first: f32_from_bits_with_nan((word % 0x1_0000_0000) as u32),
            second: f32_from_bits_with_nan((word / 0x1_0000_0000) as u32),
        }
    }

    // Lane by lane, each rounded once.
    fn sum(self, other: Pair) -> Pair {
        Pair {
            first: self.first + other.first,
            second: self.second + other.second,
        }
    }
}
