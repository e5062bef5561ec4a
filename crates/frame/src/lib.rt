// Frame markers, their words, and the renaming of a frame's registers.
#![tactic(auto)]

ghost use Rattle.std.specs.Prelude.{◌-◌, ◌*◌, ◌≤◌};

mod fields;
mod renaming;
mod unlawful;

pub use unlawful::UnlawfulMarker;

// The size of a frame, of its locals and of its rotating part (in eights), and the rotation. No unlawful marker exists.
#[derive(Clone, Copy, Debug, PartialEq, Eq)]
pub struct FrameMarker {
    sof: u32,
    sol: u32,
    sor: u32,
    rotation: u32,
    ghost frame: { sof ≤ 96 },
    ghost locals: { sol ≤ sof },
    ghost rotating: { 8 * sor ≤ sof },
    ghost turned: { rotation ≤ 8 * sor - 1 },
}
