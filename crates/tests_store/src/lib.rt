// A third store, unlike those of the crate `store`: it owns its words, and keeps each as two halves of 32 bits. With examples of all three.
#![tactic(auto)]

ghost use Rattle.std.specs.Prelude.{◌≡◌, ◌+◌, if◌then◌else◌, Some, None, Ok, Err};
ghost use Rattle.store.specs.Rules.{is_open, refusal_of, written};

use store::{Store, StoreFault};

mod halves;
#[cfg(test)]
mod tests;

pub use halves::{HalfStore, Halves};

// Writes `v` to word `w` of any store, and reads it again.
pub fn echo<S: Store>(store: &mut S, w: u64, v: u64) -> Result<u64, StoreFault>
    ensures answer { result ≡ (if is_open (S.meaning store.old) w then Ok v else Err (refusal_of (S.meaning store.old) w)) }
    ensures after { S.meaning store.new ≡ written (S.meaning store.old) w v }
{
    store.write(w, v)?;
    store.read(w)
}

// The number after that of an open word. It fits, since a store has fewer words than 2 ^ 64.
pub fn word_after<S: Store>(store: &S, w: u64) -> Option<u64>
    ensures { result ≡ (if is_open (S.meaning store.now) w then Some (w + 1) else None) }
{
    if store.is_open(w) { Some(w + 1) } else { None }
}
