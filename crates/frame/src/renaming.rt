// Turning the rotating part of a frame, and where its registers stand.
ghost use Rattle.std.specs.Prelude.{◌≡◌};
ghost use Rattle.frame.specs.Markers.{turned_once, Turns};
ghost use Rattle.frame.specs.Fields.{Rerotated, place_under, RenamesUnder};

use super::FrameMarker;

impl FrameMarker {
    // Lowers the rotation by one, from 0 to 8·sor − 1; where sor is 0 it stays 0.
    #[tactic(auto, using(crate::proofs::Rounds::rounds))]
    pub fn rotate(&mut self)
        ensures parts { Rerotated self.old (turned_once self.old.sor self.old.rotation) self.new }
        ensures turns { Turns self.old.sor self.old.rotation self.new.rotation }
    {
        self.rotation = if self.rotation > 0 {
            self.rotation - 1
        } else {
            (8 * self.sor).saturating_sub(1)
        };
    }

    // Sets the rotation to zero.
    pub fn reset_rotation(&mut self)
        ensures { Rerotated self.old 0 self.new }
    {
        self.rotation = 0;
    }

    // How far above base the register stands; none where it is outside the frame.
    // The frame's registers stand at 0 to sof − 1, one at each place.
    #[tactic(auto, using(crate::proofs::Rounds::rounds))]
    pub fn place(&self, register: u64) -> Option<u32>
        ensures answer { result ≡ place_under self.now register }
        ensures renames { RenamesUnder self.now }
    {
        if register < 32 || register - 32 >= u64::from(self.sof) {
            return None;
        }
        let index = (register - 32) as u32;
        if index < 8 * self.sor {
            return Some((index + self.rotation) % (8 * self.sor));
        }
        Some(index)
    }
}
