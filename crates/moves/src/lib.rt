// Moves of registers between the file and the backing store (docs/RULES.md, "Moves"), for every store and every kind.
// The file and the store stay two parameters, since no struct may hold the lent slots; so do the bounds of a run, since a
// `Range` is moved and a caller asks about a run before it makes it.
#![tactic(auto)]

ghost use Rattle.std.specs.Prelude.{◌≡◌};
ghost use Rattle.moves.specs.Steps.{placed};

mod asking;
mod fills;
mod lowers;
mod spills;
mod state;
mod trips;

pub use state::{Counts, Cursor, MoveFault, Movement, Place};
use store::StoreFault;

// Adds to a store's fault the move that met it.
pub fn at_place<T>(answer: Result<T, StoreFault>, place: Place) -> Result<T, MoveFault>
    ensures { result ≡ placed answer place }
{
    answer.map_err(|fault| MoveFault { fault, place })
}
