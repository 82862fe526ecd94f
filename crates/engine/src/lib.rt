//! Engines: what finding a tile in a draft answers, whichever way it is done.
#![tactic(auto)]

ghost use Rattle.std.specs.Prelude.{◌≡◌, ℕ, length, OnErr, slice_set};
ghost use Rattle.grids.specs.Refusals.{numbered};
ghost use Rattle.engine.specs.Views.{viewed};
ghost use Rattle.engine.specs.Rules.{Rule};
ghost use Rattle.engine.specs.Finding.{find_answer, find_list, find_tally};

mod checks;

use cells::Cell;
pub use checks::{ValidTile, check_find, check_work};
use drafts::Draft;
use grids::{Found, Position, Refusal};

/// A lent tile: its size, and its cells row after row.
#[derive(Clone, Copy, PartialEq, Eq, PartialOrd, Ord)]
pub struct TileView<'a, C> {
    pub rows: usize,
    pub cols: usize,
    pub cells: &'a [C],
}

/// Writes a place into a list; past the end of the list nothing is written.
pub fn note(list: &mut [Position], n: usize, place: Position)
    ensures { list.new ≡ slice_set list.old n place }
{
    if n < list.len() {
        list[n] = place;
    }
}

/// A way of finding all places of a tile in a draft.
pub trait Engine<C: Cell> {
    /// How many looks it takes.
    ghost rule: { Rule C };

    /// Finds the tile in the draft. The list takes the first places in reading order, as many as
    /// fit; what the work table held does not matter.
    // Both are lent, since the library allocates nothing.
    fn find<D: Draft<Cell = C>>(
        &self,
        draft: &mut D,
        tile: &TileView<'_, C>,
        work: &mut [u32],
        list: &mut [Position],
    ) -> Result<Found, Refusal>
        ensures answer { numbered result ≡ find_answer C.Cell.kind rule (D.Draft.shows draft.old) (viewed tile.now) (length work.old) }
        ensures listing { list.new ≡ find_list C.Cell.kind (D.Draft.shows draft.old) (viewed tile.now) (length work.old) list.old }
        ensures same { D.Draft.shows draft.new ≡ D.Draft.shows draft.old }
        ensures counts { D.Draft.tally draft.new ≡ find_tally rule (D.Draft.shows draft.old) (viewed tile.now) (length work.old) (D.Draft.tally draft.old) }
        ensures untouched { OnErr result ((draft.new ≡ draft.old) × (work.new ≡ work.old) × (list.new ≡ list.old)) };
}
