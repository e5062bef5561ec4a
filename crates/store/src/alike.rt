// Two paged stores of the same words and doors, over frames of their own, cannot be told apart by the same calls.
// A function for each call: one that takes the call as a closure would say less of what it leaves. The two stores stay two
// parameters, since no struct may hold what is lent.
ghost use Rattle.std.specs.Prelude.{◌≡◌};
ghost use Rattle.store.specs.Paged.{meaning_of, landed, Alike, Same};
ghost use Rattle.store.specs.Rules.{read_of, write_of, door_of, door_set};

use crate::{Cause, PagedStore, Store, StoreFault};

// Writes `v` to word `w` of both. In the memory of each the write changes one word, where `w` lies, or none.
pub fn write_both(
    first: &mut PagedStore<'_>,
    second: &mut PagedStore<'_>,
    w: u64,
    v: u64,
) -> (Result<(), StoreFault>, Result<(), StoreFault>)
    ensures answers { Alike first.old second.old → result.0 ≡ result.1 }
    ensures alike { Alike first.old second.old → Same first.new second.new }
    ensures each { result ≡ (write_of (meaning_of first.old) w, write_of (meaning_of second.old) w) }
    ensures first { first.new.memory.now ≡ landed first.old w v }
    ensures second { second.new.memory.now ≡ landed second.old w v }
{
    (first.write(w, v), second.write(w, v))
}

// Opens or shuts page `page` of both. The memory of each stays as it is.
pub fn door_both(
    first: &mut PagedStore<'_>,
    second: &mut PagedStore<'_>,
    page: u64,
    open: bool,
) -> (Result<(), Cause>, Result<(), Cause>)
    ensures answers { Alike first.old second.old → result.0 ≡ result.1 }
    ensures alike { Alike first.old second.old → Same first.new second.new }
    ensures each { result ≡ (door_of (meaning_of first.old) page, door_of (meaning_of second.old) page) }
    ensures first { meaning_of first.new ≡ door_set (meaning_of first.old) page «open» }
    ensures second { meaning_of second.new ≡ door_set (meaning_of second.old) page «open» }
    ensures still { (first.new.memory.now ≡ first.old.memory.now) × (second.new.memory.now ≡ second.old.memory.now) }
{
    (first.set_door(page, open), second.set_door(page, open))
}

// Reads word `w` of both.
pub fn read_both(
    first: &PagedStore<'_>,
    second: &PagedStore<'_>,
    w: u64,
) -> (Result<u64, StoreFault>, Result<u64, StoreFault>)
    ensures answers { Alike first.now second.now → result.0 ≡ result.1 }
    ensures each { result ≡ (read_of (meaning_of first.now) w, read_of (meaning_of second.now) w) }
{
    (first.read(w), second.read(w))
}
