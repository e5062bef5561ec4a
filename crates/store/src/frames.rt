// The check of frames before a paged store is made.
ghost use Rattle.std.specs.Prelude.{◌≡◌, MatchBool, MatchResult};
ghost use Rattle.store.specs.Frames.{Fit, Below, Different};

use std::error::Error;
use std::fmt;

// The host offers what no store or engine can be made of.
#[derive(Clone, Copy, Debug, PartialEq, Eq, Hash)]
pub struct HostRefused;

// By hand: the crates at the bottom stand on the standard library alone.
impl fmt::Display for HostRefused {
    fn fmt<W: fmt::Write>(&self, f: &mut fmt::Formatter<W>) -> fmt::Result {
        f.write_str("the host offers what no store or engine can be made of")
    }
}

impl Error for HostRefused {}

impl HostRefused {
    // The number of this refusal. It stays a method, since a lone error has no variants to number.
    pub fn number(self) -> u64
        ensures { result ≡ 17 }
    {
        17
    }
}

// Whether the frames are all below `n` and all different.
fn sound(n: u64, frames: &[u64]) -> bool
    ensures { MatchBool result (Below frames.now n × Different frames.now) (Below frames.now n → Different frames.now → ⊥) }
{
    // A loop: its invariant is a line, where `all` over the same chain leaves a goal. And `any` in it: `contains` takes nearly twice
    // the time on numbers.
    for (i, frame) in frames.iter().enumerate() {
        if *frame >= n || frames[..i].iter().any(|earlier| earlier == frame) {
            return false;
        }
    }
    true
}

// A memory of `length` words can be paged by these frames: the length is a multiple of 64 from 64 to 65,536, and each of its pages
// has a frame of its own below the number of pages.
pub fn check_frames(length: u64, frames: &[u64]) -> Result<(), HostRefused>
    ensures { MatchResult result (λ _. Fit length frames.now) (λ _. Fit length frames.now → ⊥) }
{
    let pages = length / 64;
    let fits = (64..=65536).contains(&length)
        && length % 64 == 0
        && frames.len() as u64 == pages
        && sound(pages, frames);
    if fits { Ok(()) } else { Err(HostRefused) }
}
