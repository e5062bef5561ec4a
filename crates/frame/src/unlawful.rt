// The refusal of fields or a word that no frame marker has.
use std::error::Error;
use std::fmt;

// The fields or the word are no frame marker's.
#[derive(Clone, Copy, Debug, PartialEq, Eq)]
pub struct UnlawfulMarker;

// By hand: the crates at the bottom stand on the standard library alone.
impl fmt::Display for UnlawfulMarker {
    fn fmt<W: fmt::Write>(&self, f: &mut fmt::Formatter<W>) -> fmt::Result {
        f.write_str("no frame marker has these fields")
    }
}

impl Error for UnlawfulMarker {}
