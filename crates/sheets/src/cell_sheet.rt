ghost use Rattle.std.specs.Prelude.{◌≡◌, ◌*◌, ◌^◌, ◌<◌, length};
ghost use Rattle.grids.specs.Refusals.{unless, numbered_by};
ghost use Rattle.drafts.specs.Making.{sheet_refusal, sheet};
ghost use Rattle.sheets.specs.Drawing.{Drawable, sheet_drawn};

use cells::Cell;
use drafts::Draft;
use grids::{Refusal, sized};

/// A draft over lent cells, row after row.
#[derive(Drop)]
pub struct CellSheet<'a, C> {
    cells: &'a [C],
    rows: usize,
    cols: usize,
    tally: u64,
    ghost sized: { Drawable rows cols },
    ghost whole: { length cells.now ≡ rows * cols },
    ghost fits: { tally < 2 ^ 64 },
}

impl<'a, C: Cell> Draft for CellSheet<'a, C> {
    type Cell = C;

    ghost shows = { λ s. sheet s.rows s.cols s.cells.now };

    ghost tally = { λ s. s.tally };

    ghost drawn = { λ s. sheet_drawn s.rows s.cols s.cells.now s.sized s.whole };

    ghost fits = { λ s. s.fits };

    fn rows(&self) -> usize {
        self.rows
    }

    fn cols(&self) -> usize {
        self.cols
    }

    fn look(&mut self, row: usize, col: usize) -> Option<C> {
        if row < self.rows && col < self.cols {
            self.tally = self.tally.wrapping_add(1);
            self.cells.get(row * self.cols + col).copied()
        } else {
            None
        }
    }
}

impl<'a, C: Cell> CellSheet<'a, C> {
    /// Makes a draft over lent cells, or refuses: size, then length.
    pub fn over(rows: usize, cols: usize, cells: &'a [C]) -> Result<CellSheet<'a, C>, Refusal>
        ensures shows { numbered_by ⟦<CellSheet<'a, C> as Draft>⟧.shows result ≡ unless (sheet_refusal rows cols (length cells.now)) (sheet rows cols cells.now) }
        ensures new { numbered_by ⟦<CellSheet<'a, C> as Draft>⟧.tally result ≡ unless (sheet_refusal rows cols (length cells.now)) 0 }
    {
        if !sized(rows, cols, 2048) {
            return Err(Refusal::DraftSize);
        }
        if cells.len() != rows * cols {
            return Err(Refusal::DraftLength);
        }
        Ok(CellSheet {
            cells,
            rows,
            cols,
            tally: 0,
        })
    }
}
