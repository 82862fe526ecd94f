//! The plain engine: at each alignment the tile is compared with the draft cell by cell, up to the
//! first cell that differs.
#![tactic(auto)]

ghost use Rattle.std.specs.Prelude.{◌≡◌, ◌+◌, ◌^◌, ◌<◌, ◌≤◌, [], ◌∷◌, length, Some, OnErr, OnOk};
ghost use Rattle.grids.specs.Grids.{laid};
ghost use Rattle.grids.specs.Places.{Exact, alike, lies, row_spots, spots, heights, widths};
ghost use Rattle.grids.specs.Refusals.{numbered};
ghost use Rattle.drafts.specs.Tallies.{raised};
ghost use Rattle.engine.specs.Views.{viewed};
ghost use Rattle.engine.specs.Finding.{find_answer, find_list, find_tally};
ghost use Rattle.plain.specs.Looks.{compared, plain_rule};
ghost use Rattle.plain.specs.Progress.{Done, Looked};

use cells::Cell;
use drafts::Draft;
use engine::{Engine, TileView, ValidTile};
use grids::{Found, Position, Refusal};

/// Compares the tile at every alignment, and stops at the first cell that differs.
#[derive(Clone, Copy)]
pub struct Plain;

impl<C: Cell> Engine<C> for Plain {
    ghost rule = { plain_rule C.Cell.kind };

    // Inlined at each call, as sweep and row are: else a sheet's tally is written to memory at each look.
    #[inline(always)]
    fn find<D: Draft<Cell = C>>(
        &self,
        draft: &mut D,
        tile: &TileView<'_, C>,
        work: &mut [u32],
        list: &mut [Position],
    ) -> Result<Found, Refusal> {
        let tile = tile.check()?;
        engine::check_work(work.len())?;
        let found = Found {
            places: 0,
            looks: 0,
        };
        let mut search = Search {
            draft,
            tile,
            list,
            found,
        };
        search.sweep();
        Ok(search.found)
    }
}

/// Finds the tile in the draft by the plain engine. Where it answers, the places are exactly those
/// at which the tile lies in the draft.
pub fn find<C: Cell, D: Draft<Cell = C>>(
    draft: &mut D,
    tile: &TileView<'_, C>,
    work: &mut [u32],
    list: &mut [Position],
) -> Result<Found, Refusal>
    ensures answer { numbered result ≡ find_answer C.Cell.kind (plain_rule C.Cell.kind) (D.Draft.shows draft.old) (viewed tile.now) (length work.old) }
    ensures listing { list.new ≡ find_list C.Cell.kind (D.Draft.shows draft.old) (viewed tile.now) (length work.old) list.old }
    ensures same { D.Draft.shows draft.new ≡ D.Draft.shows draft.old }
    ensures counts { D.Draft.tally draft.new ≡ find_tally (plain_rule C.Cell.kind) (D.Draft.shows draft.old) (viewed tile.now) (length work.old) (D.Draft.tally draft.old) }
    ensures untouched { OnErr result ((draft.new ≡ draft.old) × (work.new ≡ work.old) × (list.new ≡ list.old)) }
    ensures exact { OnOk result (Exact C.Cell.kind (D.Draft.shows draft.old) (viewed tile.now)) }
{
    Plain.find(draft, tile, work, list)
}

/// Looks at one cell of the draft, and says whether it is the given one.
// Lent: with a copy of the cell, lifts that agree to the last one took a twelfth more instructions.
fn agree_at<C: Cell, D: Draft<Cell = C>>(draft: &mut D, row: usize, col: usize, cell: &C) -> bool
    requires { (row < (D.Draft.shows draft.old).rows) × (col < (D.Draft.shows draft.old).cols) }
    ensures answer { result ≡ alike C.Cell.kind ((D.Draft.shows draft.old).at row col) (Some cell.now) }
    ensures same { D.Draft.shows draft.new ≡ D.Draft.shows draft.old }
    ensures counts { D.Draft.tally draft.new ≡ raised (D.Draft.tally draft.old) 1 }
{
    draft.look(row, col).as_ref() == Some(cell)
}

/// A search of a draft for a tile, and what it has found so far.
#[derive(Drop)]
struct Search<'s, C, D> {
    draft: &'s mut D,
    tile: ValidTile<'s, C>,
    list: &'s mut [Position],
    found: Found,
}

impl<C: Cell, D: Draft<Cell = C>> Search<'_, C, D> {
    /// Whether the tile agrees with the draft in every cell, its corner at a position. Each cell
    /// compared, up to the first that differs, is a look.
    fn agrees(&mut self, corner: Position) -> bool
        requires inside { (corner.row + self.old.tile.view.rows ≤ (D.Draft.shows self.old.draft.now).rows) × (corner.col + self.old.tile.view.cols ≤ (D.Draft.shows self.old.draft.now).cols) }
        requires few { self.old.found.looks < 2 ^ 40 }
        ensures agrees { result ≡ lies C.Cell.kind (D.Draft.shows self.old.draft.now) (laid (viewed self.old.tile.view)) corner }
        ensures looked { Looked D.Draft.shows D.Draft.tally (compared C.Cell.kind (D.Draft.shows self.old.draft.now) (laid (viewed self.old.tile.view)) corner) self.old self.new }
        ensures few { self.new.found.looks ≤ self.old.found.looks + 1024 }
    {
        // The cells by index: with `chunks_exact` the loops took up to a sixth longer.
        let TileView { rows, cols, cells } = self.tile.view;
        // Lent once: with `self.draft` lent for each cell, a comparison took half as long again.
        let draft = &mut *self.draft;
        let mut looks: u64 = 0;
        let mut agrees = true;
        'tile: for i in 0..rows {
            for j in 0..cols {
                looks += 1;
                let cell = &cells[i * cols + j];
                if !agree_at(draft, corner.row + i, corner.col + j, cell) {
                    agrees = false;
                    break 'tile;
                }
            }
        }
        self.found.looks += looks;
        agrees
    }

    /// Tries one alignment.
    fn spot(&mut self, corner: Position)
        requires inside { (corner.row + self.old.tile.view.rows ≤ (D.Draft.shows self.old.draft.now).rows) × (corner.col + self.old.tile.view.cols ≤ (D.Draft.shows self.old.draft.now).cols) }
        requires few { (self.old.found.places < 2 ^ 32) × (self.old.found.looks < 2 ^ 40) }
        ensures { Done C.Cell.kind D.Draft.shows D.Draft.tally (corner ∷ []) self.old self.new }
    {
        if self.agrees(corner) {
            engine::note(self.list, self.found.places, corner);
            self.found.places += 1;
        }
    }

    /// Tries the alignments of one row, of which there are `width`.
    #[inline(always)]
    fn row(&mut self, row: usize, width: usize)
        requires inside { (row + self.old.tile.view.rows ≤ (D.Draft.shows self.old.draft.now).rows) × (width ≡ widths (D.Draft.shows self.old.draft.now) (laid (viewed self.old.tile.view))) }
        requires few { (self.old.found.places < 2 ^ 31) × (self.old.found.looks < 2 ^ 39) }
        ensures { Done C.Cell.kind D.Draft.shows D.Draft.tally (row_spots width row) self.old self.new }
    {
        for col in 0..width {
            self.spot(Position { row, col });
        }
    }

    /// Tries every alignment, row after row.
    #[inline(always)]
    fn sweep(&mut self)
        requires { (self.old.found.places ≡ 0) × (self.old.found.looks ≡ 0) }
        ensures { Done C.Cell.kind D.Draft.shows D.Draft.tally (spots (heights (D.Draft.shows self.old.draft.now) (laid (viewed self.old.tile.view))) (widths (D.Draft.shows self.old.draft.now) (laid (viewed self.old.tile.view)))) self.old self.new }
    {
        let height = (self.draft.rows() + 1).saturating_sub(self.tile.view.rows);
        let width = (self.draft.cols() + 1).saturating_sub(self.tile.view.cols);
        for row in 0..height {
            self.row(row, width);
        }
    }
}
