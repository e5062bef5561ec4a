// Kind pair: two single-precision numbers.
ghost use Rattle.std.specs.Prelude.{T};
ghost use Rattle.std.specs.Float.Ieee.{fits};
ghost use Rattle.std.specs.Float.{binary32};

#[derive(Clone, Copy, Debug, PartialEq)]
pub struct Pair {
    pub first: f32,
    pub second: f32,
    ghost low: { T (fits binary32 first) },
    ghost high: { T (fits binary32 second) },
}
