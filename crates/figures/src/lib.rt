// Twelve figures worked out by hand: the definitions have them, and the code computes them.
#![tactic(auto)]

ghost use Rattle.std.specs.Prelude.{◌≡◌, true, false, [], ◌∷◌, Some};
ghost use Rattle.figures.specs.Figures.{Figures};

use address::{address_of, with_nat};
use frame::FrameMarker;

// The figures of frame markers.
#[derive(Clone, Copy, Debug, PartialEq, Eq)]
pub struct MarkerFigures {
    // How far above base the first, the second and the ninth register stand: eight rotating registers, turned by seven.
    pub places: [Option<u32>; 3],
    // The words 260 and 208,992 by their fields.
    pub words: [[u32; 4]; 2],
    // Whether rotations 95 and 96 are lawful in the largest frame.
    pub lawful: [bool; 2],
}

// The fields of a marker.
fn fields(marker: FrameMarker) -> [u32; 4]
    ensures { result ≡ marker.sof ∷ marker.sol ∷ marker.sor ∷ marker.rotation ∷ [] }
{
    [marker.sof(), marker.sol(), marker.sor(), marker.rotation()]
}

// The addresses of positions 62, 63, 125 and 126, and the collection of a group with NaT at its first and last register.
pub fn figures() -> ([u64; 4], u64)
    ensures addresses { result.0 ≡ 62 ∷ 64 ∷ 126 ∷ 128 ∷ [] }
    ensures collection { result.1 ≡ 4611686018427387905 }
    ensures defined { Figures }
{
    let first = with_nat(0, address_of(0, 0), true);
    (
        [62, 63, 125, 126].map(|position| address_of(0, position)),
        with_nat(first, address_of(0, 62), true),
    )
}

pub fn marker_figures() -> MarkerFigures
    ensures places { result.places ≡ Some 7 ∷ Some 0 ∷ Some 8 ∷ [] }
    ensures words { result.words ≡ (4 ∷ 2 ∷ 0 ∷ 0 ∷ []) ∷ (96 ∷ 96 ∷ 12 ∷ 0 ∷ []) ∷ [] }
    ensures lawful { result.lawful ≡ true ∷ false ∷ [] }
    ensures defined { Figures }
{
    let marker = FrameMarker::from_parts(9, 0, 1, 7).unwrap();
    let first = FrameMarker::try_from(260).unwrap();
    let second = FrameMarker::try_from(208992).unwrap();
    MarkerFigures {
        places: [32, 33, 40].map(|register| marker.place(register)),
        words: [first, second].map(fields),
        lawful: [95, 96].map(|rotation| FrameMarker::from_parts(96, 96, 12, rotation).is_ok()),
    }
}
