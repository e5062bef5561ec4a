// A ring of N slots, lent as a slice: position p uses slot p mod N. An empty slice holds nothing.
ghost use Rattle.std.specs.Prelude.{◌≡◌, ◌-◌};
ghost use Rattle.register.specs.Slots.{register_at, register_put, registers_cleared, cleared_slot, PutShows, ClearShows};

use super::{Kind, Slot};

impl<K: Kind> Slot<K> {
    // The zero register, NaT clear.
    pub fn cleared() -> Slot<K>
        ensures { result ≡ cleared_slot K.zero_content }
    {
        Slot {
            content: K::zero(),
            nat: false,
        }
    }
}

// The register at a position; zero with NaT clear where the slice is empty.
pub fn register_at<K: Kind>(slots: &[Slot<K>], position: u64) -> Slot<K>
    ensures { result ≡ register_at K.zero_content slots.now position }
{
    if slots.is_empty() {
        return Slot::cleared();
    }
    slots[(position % slots.len() as u64) as usize]
}

// Puts a register at a position. An empty slice stays empty.
#[tactic(auto, using(crate::proofs::Rings::put_laws))]
pub fn put_register<K: Kind>(slots: &mut [Slot<K>], position: u64, register: Slot<K>)
    ensures exact { slots.new ≡ register_put slots.old position register }
    ensures shows { PutShows K.zero_content slots.old position register slots.new }
{
    if slots.is_empty() {
        return;
    }
    let place = (position % slots.len() as u64) as usize;
    slots[place] = register;
}

// Clears the positions from `low` up to `high`, in order: zero, NaT clear.
#[tactic(auto, using(crate::proofs::Rings::clear_shows))]
pub fn clear_registers<K: Kind>(slots: &mut [Slot<K>], low: u64, high: u64)
    ensures exact { slots.new ≡ registers_cleared K.zero_content (high - low) low slots.old }
    ensures shows { ClearShows K.zero_content slots.old (high - low) low slots.new }
{
    for p in low..high {
        put_register(slots, p, Slot::cleared());
    }
}
