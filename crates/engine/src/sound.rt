// An engine: a machine whose contexts keep their bounds.
ghost use Rattle.std.specs.Prelude.{◌≡◌, ℕ, ◌+◌, ◌%◌, ◌^◌, ◌<◌, ◌≤◌, true, false, length};
ghost use Rattle.address.specs.Addresses.{capacity_of};
ghost use Rattle.frame.specs.Markers.{sof_of, lawful_word};
ghost use Rattle.context.specs.Records.{bsp_of, stored_of, top_of};
ghost use Rattle.engine.specs.Tables.{record_at};
ghost use Rattle.engine.specs.Rules.{is_parked_entry};
ghost use Rattle.engine.specs.Invariants.{is_idle, is_closed, is_flushed, is_current_entry};

use super::machine::Machine;

#[derive(Clone, Copy, Debug, PartialEq, Eq)]
pub struct Engine {
    pub machine: Machine,
    ghost eight: { length machine.table.entries ≡ 8 },
    ghost within: { machine.current < 8 },
    ghost regions: { (k : ℕ) → (record_at machine k).start + (record_at machine k).size ≤ 65536 },
    ghost marked: { (k : ℕ) → lawful_word (record_at machine k).marker ≡ true },
    ghost previously: { (k : ℕ) → lawful_word (record_at machine k).previous ≡ true },
    ghost saving: { (k : ℕ) → lawful_word (record_at machine k).saved ≡ true },
    ghost held: { (k : ℕ) → (record_at machine k).base + sof_of (record_at machine k).marker ≤ capacity_of (record_at machine k).size },
    // The file: a multiple of 16 slots, from 96 to 2,048, so that it holds any frame.
    ghost grouped: { machine.slots % 16 ≡ 0 },
    ghost enough: { 96 ≤ machine.slots },
    ghost most: { machine.slots ≤ 2048 },
    // A region is made of whole groups.
    ghost aligned: { (k : ℕ) → (record_at machine k).start % 64 ≡ 0 },
    ghost sized: { (k : ℕ) → (record_at machine k).size % 64 ≡ 0 },
    // BSPSTORE lies in the region, at or below BSP.
    ghost begins: { (k : ℕ) → (record_at machine k).start ≤ (record_at machine k).bspstore },
    ghost dirty: { (k : ℕ) → (record_at machine k).bspstore ≤ bsp_of (record_at machine k) },
    // Every position below `lo` is stored, and the file has a slot for each from there to top.
    ghost clean: { (k : ℕ) → (record_at machine k).lo ≤ stored_of (record_at machine k) },
    ghost room: { (k : ℕ) → top_of (record_at machine k) ≤ (record_at machine k).lo + machine.slots },
    // RNAT has bits for the registers of BSPSTORE's group that are stored, and no others.
    ghost bits: { (k : ℕ) → (record_at machine k).rnat < 2 ^ ((record_at machine k).bspstore % 64) },
    // Outside idle a context is driven.
    ghost awake: { is_idle machine.state ≡ false → is_current_entry (record_at machine machine.current).status ≡ true },
    // Covered or flushed: its frame is empty, and the one that was covered lies below base.
    ghost covered: { is_closed machine.state ≡ true → (record_at machine machine.current).marker ≡ 0 },
    ghost below: { is_closed machine.state ≡ true → sof_of (record_at machine machine.current).saved ≤ (record_at machine machine.current).base },
    // Flushed: all below base is stored.
    ghost flushed: { is_flushed machine.state ≡ true → (record_at machine machine.current).bspstore ≡ bsp_of (record_at machine machine.current) },
    // A parked context was flushed.
    ghost emptied: { (k : ℕ) → is_parked_entry (record_at machine k).status ≡ true → (record_at machine k).marker ≡ 0 },
    ghost lying: { (k : ℕ) → is_parked_entry (record_at machine k).status ≡ true → sof_of (record_at machine k).saved ≤ (record_at machine k).base },
    ghost rested: { (k : ℕ) → is_parked_entry (record_at machine k).status ≡ true → (record_at machine k).bspstore ≡ bsp_of (record_at machine k) },
}
