// Kind word: a 64-bit number.
ghost use Rattle.std.specs.Prelude.{◌^◌, ◌<◌};

#[derive(Clone, Copy, Debug, PartialEq, Eq)]
pub struct Word {
    pub value: u64,
    ghost fits: { value < 2 ^ 64 },
}
