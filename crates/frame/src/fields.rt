// Making a frame marker, and reading its fields and its word.
ghost use Rattle.std.specs.Prelude.{◌≡◌};
ghost use Rattle.frame.specs.Fields.{Parts, MadeOfParts, MadeOfWord, WordGiven};

use super::{FrameMarker, UnlawfulMarker};

impl FrameMarker {
    // The marker of a frame without registers.
    // No `Default`: none can be derived beside ghost fields, and one by hand is no plainer.
    pub fn empty() -> FrameMarker
        ensures { Parts result 0 0 0 0 }
    {
        FrameMarker {
            sof: 0,
            sol: 0,
            sor: 0,
            rotation: 0,
        }
    }

    // The marker with these fields, where they are lawful.
    pub fn from_parts(
        sof: u64,
        sol: u64,
        sor: u64,
        rotation: u64,
    ) -> Result<FrameMarker, UnlawfulMarker>
        ensures { MadeOfParts result sof sol sor rotation }
    {
        if sof > 96 || sol > sof || sor > sof / 8 {
            return Err(UnlawfulMarker);
        }
        if rotation >= 8 * sor && rotation != 0 {
            return Err(UnlawfulMarker);
        }
        Ok(FrameMarker {
            sof: sof as u32,
            sol: sol as u32,
            sor: sor as u32,
            rotation: rotation as u32,
        })
    }

    // The size of the frame.
    pub fn sof(&self) -> u32
        ensures { result ≡ self.now.sof }
    {
        self.sof
    }

    // The size of its locals.
    pub fn sol(&self) -> u32
        ensures { result ≡ self.now.sol }
    {
        self.sol
    }

    // The size of its rotating part, in eights.
    pub fn sor(&self) -> u32
        ensures { result ≡ self.now.sor }
    {
        self.sor
    }

    // The rotation.
    pub fn rotation(&self) -> u32
        ensures { result ≡ self.now.rotation }
    {
        self.rotation
    }
}

// The marker with this word, where the word is lawful.
impl TryFrom<u64> for FrameMarker {
    type Error = UnlawfulMarker;

    ghost try_from_gives = { MadeOfWord };

    fn try_from(word: u64) -> Result<FrameMarker, UnlawfulMarker> {
        if word >= 0x200_0000 {
            return Err(UnlawfulMarker);
        }
        FrameMarker::from_parts(
            word % 128,
            word / 0x80 % 128,
            word / 0x4000 % 16,
            word / 0x4_0000 % 128,
        )
    }
}

// The marker's word: sof in bits 0 to 6, sol in 7 to 13, sor in 14 to 17, rotation in 18 to 24.
impl From<FrameMarker> for u64 {
    ghost from_gives = { WordGiven };

    fn from(marker: FrameMarker) -> u64 {
        u64::from(marker.sof)
            + 0x80 * u64::from(marker.sol)
            + 0x4000 * u64::from(marker.sor)
            + 0x4_0000 * u64::from(marker.rotation)
    }
}
