// Why an instruction is refused, in the order in which it is asked (docs/RULES.md, "Refusals").
ghost use Rattle.std.specs.Prelude.{◌≡◌};
ghost use Rattle.context.specs.declared.refusals.Refusal.TheVariants.{Marker, Shut};
ghost use Rattle.context.specs.Refusals.{refusal_number};

use frame::UnlawfulMarker;
use moves::MoveFault;

#[derive(Clone, Copy, Debug, PartialEq, Eq)]
pub enum Refusal {
    // The line is not readable.
    Unreadable,
    // An operand is out of range.
    Operand,
    // The state does not allow it.
    State,
    // A register lies outside the frame.
    Register,
    // The marker is unlawful.
    Marker,
    // The rotating part would change while it is rotated.
    Rotation,
    // The new top would pass the region.
    Top,
    // Not enough lies below.
    Depth,
    // More than 96 registers among the words.
    TooMany,
    // The entry is not empty, or not parked.
    Entry,
    // The region is not well formed.
    Region,
    // The region overlaps one that is not retired.
    Overlap,
    // The doors do not move.
    Doors,
    // The mode does not allow it.
    Mode,
    // Nothing to move, or no room for it.
    Nothing,
    // A word that it must move is shut.
    Shut(MoveFault),
    // The host's register count or store length is not lawful, or not the one at making.
    Host,
}

impl Refusal {
    // The number by which a refusal is told. No `From`: the number does not hold the fault of a shut word.
    pub fn number(&self) -> u64
        ensures { result ≡ refusal_number self.now }
    {
        match self {
            Refusal::Unreadable => 1,
            Refusal::Operand => 2,
            Refusal::State => 3,
            Refusal::Register => 4,
            Refusal::Marker => 5,
            Refusal::Rotation => 6,
            Refusal::Top => 7,
            Refusal::Depth => 8,
            Refusal::TooMany => 9,
            Refusal::Entry => 10,
            Refusal::Region => 11,
            Refusal::Overlap => 12,
            Refusal::Doors => 13,
            Refusal::Mode => 14,
            Refusal::Nothing => 15,
            Refusal::Shut(_) => 16,
            Refusal::Host => 17,
        }
    }
}

// Both by hand, so that a clause knows the refusal that `?` makes.
impl From<MoveFault> for Refusal {
    ghost from_gives = { λ fault r. r ≡ Shut fault };

    fn from(fault: MoveFault) -> Refusal {
        Self::Shut(fault)
    }
}

impl From<UnlawfulMarker> for Refusal {
    ghost from_gives = { λ _ r. r ≡ Marker };

    fn from(_error: UnlawfulMarker) -> Refusal {
        Self::Marker
    }
}
