// What each instruction does to one context: the part that the table engine and a directly driven context share.
// The file and the store stay two parameters, since no struct may hold the lent slots.
#![tactic(auto)]

ghost use Rattle.std.specs.Prelude.{◌≡◌, true, false, MatchOption};
ghost use Rattle.frame.specs.Markers.{lawful_word};
ghost use Rattle.frame.specs.Fields.{word_of, PartsOfWord};
ghost use Rattle.context.specs.Records.{cursor_of};
ghost use Rattle.context.specs.Regions.{well_formed, begun};

mod frames;
mod record;
mod refusals;
mod regions;
mod returns;
mod sound;
mod spilling;

use frame::FrameMarker;
use moves::{Counts, Cursor};
pub use record::{ContextRecord, Status};
pub use refusals::Refusal;
pub use regions::{LONGEST_STORE, Region};
pub use sound::Context;

impl Region {
    // The region, where it is well formed in a store of `length` words: both numbers multiples of 64, at least 64
    // words, and all of them in the store.
    pub fn new(start: u64, size: u64, length: u64) -> Option<Region>
        ensures { MatchOption result (well_formed start size length ≡ false)
            (λ g. (well_formed start size length ≡ true) × (g.start ≡ start) × (g.size ≡ size)) }
    {
        if start > LONGEST_STORE
            || size > LONGEST_STORE
            || start % 64 != 0
            || size % 64 != 0
            || size < 64
        {
            return None;
        }
        if start + size > length.min(LONGEST_STORE) {
            return None;
        }
        Some(Region {
            start: start as u32,
            size: size as u32,
        })
    }
}

impl Context {
    // A new context: nothing on its stack, all markers empty.
    pub fn begin(region: Region, number: u64, counts: Counts) -> Context
        ensures stack { result.stack ≡ begun region.start region.size }
        ensures number { result.number ≡ number }
        ensures counts { result.counts ≡ counts }
    {
        Context {
            stack: ContextRecord {
                status: Status::Current,
                start: region.start,
                size: region.size,
                base: 0,
                marker: 0,
                previous: 0,
                saved: 0,
                lo: 0,
                bspstore: u64::from(region.start),
                rnat: 0,
            },
            number,
            counts,
        }
    }

    // Where its moves stand.
    pub fn cursor(&self) -> Cursor
        ensures { result ≡ cursor_of self.now.number self.now.stack self.now.counts }
    {
        self.stack.cursor(self.number, self.counts)
    }
}

// The marker of a word that is lawful.
fn marker_of(word: u64) -> FrameMarker
    requires { lawful_word word ≡ true }
    ensures word { word_of result ≡ word }
    ensures parts { PartsOfWord result word }
{
    FrameMarker::try_from(word).unwrap()
}
