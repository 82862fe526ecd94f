ghost use Rattle.std.specs.Prelude.{◌≡◌, ◌*◌, ◌^◌, ◌<◌, true, length, is_some};
ghost use Rattle.grids.specs.Refusals.{unless, numbered_by};
ghost use Rattle.readings.specs.CellLists.{cells_read, cells_of};
ghost use Rattle.drafts.specs.Making.{bytes_refusal, sheet};
ghost use Rattle.sheets.specs.Drawing.{Drawable, bytes_drawn};

use cells::Cell;
use drafts::Draft;
use grids::{Refusal, sized};
use readings::all_read;
use std::marker::PhantomData;

/// A draft over lent file bytes that all read as cells; a cell is read at each look.
#[derive(Drop)]
pub struct ByteSheet<'a, C: Cell> {
    bytes: &'a [u8],
    rows: usize,
    cols: usize,
    tally: u64,
    kind: PhantomData<C>,
    ghost sized: { Drawable rows cols },
    ghost whole: { length bytes.now ≡ rows * cols * C.Cell.reading.width },
    ghost read: { is_some (cells_read C.Cell.reading (rows * cols) bytes.now) ≡ true },
    ghost fits: { tally < 2 ^ 64 },
}

impl<'a, C: Cell> Draft for ByteSheet<'a, C> {
    type Cell = C;

    ghost shows = { λ s. sheet s.rows s.cols (cells_of C.Cell.reading (s.rows * s.cols) s.bytes.now) };

    ghost tally = { λ s. s.tally };

    ghost drawn = { λ s. bytes_drawn C.Cell.reading s.rows s.cols s.bytes.now s.sized s.read };

    ghost fits = { λ s. s.fits };

    fn rows(&self) -> usize {
        self.rows
    }

    fn cols(&self) -> usize {
        self.cols
    }

    fn look(&mut self, row: usize, col: usize) -> Option<C> {
        if row < self.rows && col < self.cols {
            let start = (row * self.cols + col) * C::BYTES;
            self.tally = self.tally.wrapping_add(1);
            C::read(&self.bytes[start..start + C::BYTES])
        } else {
            None
        }
    }
}

impl<'a, C: Cell> ByteSheet<'a, C> {
    /// Makes a draft over lent file bytes, or refuses: size, length, then a cell whose bytes read as
    /// none.
    pub fn over(rows: usize, cols: usize, bytes: &'a [u8]) -> Result<ByteSheet<'a, C>, Refusal>
        ensures shows { numbered_by ⟦<ByteSheet<'a, C> as Draft>⟧.shows result ≡ unless (bytes_refusal C.Cell.reading rows cols bytes.now) (sheet rows cols (cells_of C.Cell.reading (rows * cols) bytes.now)) }
        ensures new { numbered_by ⟦<ByteSheet<'a, C> as Draft>⟧.tally result ≡ unless (bytes_refusal C.Cell.reading rows cols bytes.now) 0 }
    {
        if !sized(rows, cols, 2048) {
            return Err(Refusal::DraftSize);
        }
        if bytes.len() != rows * cols * C::BYTES {
            return Err(Refusal::DraftLength);
        }
        if !all_read::<C>(rows * cols, bytes) {
            return Err(Refusal::NoCell);
        }
        Ok(ByteSheet {
            bytes,
            rows,
            cols,
            tally: 0,
            kind: PhantomData,
        })
    }
}
