//! The tiles of a book, their cells in the store that goes with it.
ghost use Rattle.std.specs.Prelude.{◌≡◌, ◌<◌, not, slice_index_or, ◌==◌};
ghost use Rattle.grids.specs.Refusals.{unless, numbered_by};
ghost use Rattle.engine.specs.Views.{viewed};
ghost use Rattle.book.specs.Models.{held, Stored, no_tile, hand_out_refusal};
ghost use Rattle.book.specs.Entering.{times_held, insertion_point};
ghost use Rattle.book.specs.Progress.{store_refusal};

use crate::Book;
use book_order::{tile_before, tile_same};
use cells::Cell;
use engine::{TileView, ValidTile};
use grids::Refusal;

// A book, and a store that has the cells of all its tiles. A call that changes the book takes the
// two apart: a ghost field beside a `&mut` is not covered. A model of it leaves fourteen facts more to
// prove than it makes clauses shorter.
#[derive(Drop)]
pub(crate) struct HeldTiles<'b, 's, C> {
    pub(crate) book: &'b Book,
    pub(crate) store: &'s [C],
    ghost stored: { Stored (held book.now store.now) },
}

impl Book {
    /// The tile with a number, its cells in the store.
    pub fn tile<'a, C>(&self, store: &'a [C], number: usize) -> Result<ValidTile<'a, C>, Refusal>
        ensures { numbered_by (λ v. viewed v.view) result ≡ unless (hand_out_refusal (held self.now store.now) number) (slice_index_or (held self.now store.now).tiles number no_tile) }
    {
        self.entry(number)?;
        Ok(self.tiles_in(store, 0)?.get(number))
    }

    // The held tiles; refuses a store that has no room for their cells and so many more.
    pub(crate) fn tiles_in<'b, 's, C>(
        &'b self,
        store: &'s [C],
        more: usize,
    ) -> Result<HeldTiles<'b, 's, C>, Refusal>
        ensures { numbered_by (λ t. held t.book.now t.store.now) result ≡ unless (store_refusal (held self.now store.now) more) (held self.now store.now) }
    {
        match store.len().checked_sub(self.cells_held()) {
            Some(room) if more <= room => Ok(HeldTiles { book: self, store }),
            _ => Err(Refusal::ShortStore),
        }
    }
}

impl<'b, 's, C> HeldTiles<'b, 's, C> {
    // The tile with a number.
    pub(crate) fn get(&self, number: usize) -> ValidTile<'s, C>
        requires { number < self.now.book.now.count }
        ensures { viewed result.view ≡ slice_index_or (held self.now.book.now self.now.store.now).tiles number no_tile }
    {
        let entry = self.book.entries[number];
        let start = self.book.start(number);
        let view = TileView {
            rows: entry.rows as usize,
            cols: entry.cols as usize,
            cells: &self.store[start..start + entry.cells()],
        };
        ValidTile { view }
    }
}

impl<'b, 's, C: Cell> HeldTiles<'b, 's, C> {
    // Whether the tile is one of them.
    pub(crate) fn holds(&self, tile: &TileView<'_, C>) -> bool
        ensures { result ≡ not (times_held C.Cell.kind (viewed tile.now) (held self.now.book.now self.now.store.now).tiles == 0) }
    {
        (0..self.book.count).any(|n| tile_same(&self.get(n).view, tile))
    }

    // The number that the tile would get.
    pub(crate) fn insertion_point(&self, tile: &TileView<'_, C>) -> usize
        ensures { result ≡ insertion_point C.Cell.kind (viewed tile.now) (held self.now.book.now self.now.store.now).tiles }
    {
        (0..self.book.count)
            .position(|n| !tile_before(&self.get(n).view, tile))
            .unwrap_or(self.book.count)
    }
}
