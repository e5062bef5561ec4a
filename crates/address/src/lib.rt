// Words of the backing store: addresses of stack positions, groups, NaT collections and their bits.
#![tactic(auto)]

ghost use Rattle.std.specs.Prelude.{◌≡◌, ℕ, ◌+◌, ◌%◌, ◌^◌, ◌≤◌};
ghost use Rattle.address.specs.Addresses.{address_of, group_of, is_collection, collection_of, positions_below, capacity_of};
ghost use Rattle.address.specs.AddressLaws.{Aligned, next_register, registers_among, Increasing, Apart, Neighbours, Counted, Found, Monotone, Steps};
ghost use Rattle.address.specs.AddressLaws.{PositionAt, CollectionOrNot, Region, Among, LastOfGroup, BitPlaces};
ghost use Rattle.address.specs.NatBits.{nat_bit, with_nat, nats_below};
ghost use Rattle.address.specs.NatLaws.{Fresh, Bounded, Placed, Cut, Local, Extended, TopClear, Whole};

// Four contracts say what holds of an aligned start by a premise: a type for it would ask more of callers.
// Start and position, bits and word stay plain numbers: callers hold them apart, and a record would be made for one call.

// The word of a stack position, in a region that begins at word `start`.
pub fn address_of(start: u32, position: u32) -> u64
    ensures { result ≡ address_of start position }
{
    u64::from(start) + u64::from(position) + u64::from(position / 63)
}

// The group of a word.
pub fn group_of(word: u64) -> u64
    ensures { result ≡ group_of word }
{
    word / 64
}

// Whether a word is a NaT collection.
pub fn is_collection(word: u64) -> bool
    ensures { result ≡ is_collection word }
{
    bit_place(word) == 63
}

// The NaT collection of a word's group.
pub fn collection_of(word: u64) -> u64
    ensures { result ≡ collection_of word }
{
    group_of(word) * 64 + 63
}

// How many of the words from `start` up to `word`, that word left out, hold positions.
pub fn positions_below(start: u32, word: u64) -> u64
    ensures { result ≡ positions_below start word }
{
    let words = word.saturating_sub(u64::from(start));
    words - words / 64
}

// How many positions a region of `size` words holds.
pub fn capacity(size: u32) -> u64
    ensures { result ≡ capacity_of size }
{
    63 * u64::from(size) / 64
}

// The bit of `word` in the collection `bits` of its group.
pub fn nat_bit(bits: u64, word: u64) -> bool
    ensures { result ≡ nat_bit bits (word % 64) }
{
    (bits >> bit_place(word)) % 2 == 1
}

// `bits` with the bit of `word` set where `nat` says so.
#[tactic(auto, using(crate::proofs::NatBits::or_bit))]
pub fn with_nat(bits: u64, word: u64, nat: bool) -> u64
    ensures { result ≡ with_nat bits (word % 64) nat }
{
    if nat { bits | place_value(word) } else { bits }
}

// The bits of `bits` that belong to words of the group below `word`.
pub fn nats_below(bits: u64, word: u64) -> u64
    ensures { result ≡ nats_below bits (word % 64) }
{
    bits % place_value(word)
}

// The first register word after that of a position: the address of the next position.
pub fn next_address(start: u32, position: u32) -> u64
    ensures word { result ≡ next_register (address_of start position) }
    ensures next { Aligned start → result ≡ address_of start (position + 1) }
    ensures increasing { Increasing start }
    ensures apart { Aligned start → Apart start }
    ensures neighbours { Aligned start → Neighbours start }
{
    let next = address_of(start, position) + 1;
    if is_collection(next) { next + 1 } else { next }
}

// The position at a word, if there is one.
pub fn position_at(start: u32, word: u64) -> Option<u64>
    ensures position { PositionAt start word result }
    ensures register { Aligned start → start ≤ word → CollectionOrNot word result }
    ensures counted { Counted start }
    ensures found { Aligned start → Found start }
    ensures monotone { Monotone start }
    ensures steps { Aligned start → Steps start }
{
    if word < u64::from(start) || is_collection(word - u64::from(start)) {
        return None;
    }
    Some(positions_below(start, word))
}

// The word just past a region.
pub fn region_end(start: u32, size: u32) -> u64
    ensures word { result ≡ start + size }
    ensures region { Aligned size → Region start size }
{
    u64::from(start) + u64::from(size)
}

// How many registers stand in the `words` words below the address of a position.
pub fn registers_among(start: u32, position: u32, words: u32) -> u64
    ensures count { result ≡ registers_among start position words }
    ensures among { Among start position words }
{
    let first = address_of(start, position).saturating_sub(u64::from(words));
    u64::from(position) - positions_below(start, first)
}

// The bit of a word in its collection.
pub fn bit_place(word: u64) -> u64
    ensures place { result ≡ word % 64 }
    ensures collection { LastOfGroup word }
    ensures places { (start : ℕ) → Aligned start → BitPlaces start }
{
    word % 64
}

// What the bit of a word is worth in its collection.
#[tactic(auto, using(crate::proofs::NatBits::nat_laws))]
pub fn place_value(word: u64) -> u64
    ensures value { result ≡ 2 ^ (word % 64) }
    ensures fresh { Fresh }
    ensures bounded { Bounded }
    ensures placed { Placed }
    ensures cut { Cut }
    ensures local { Local }
    ensures extended { Extended }
    ensures clear { TopClear }
    ensures whole { Whole }
{
    1 << bit_place(word)
}
