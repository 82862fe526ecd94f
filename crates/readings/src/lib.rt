//! Reading cells, one after another, from file bytes.
#![tactic(auto)]

ghost use Rattle.std.specs.Prelude.{◌≡◌, ◌≤◌, true, length, is_some};
ghost use Rattle.grids.specs.Listed.{listed};
ghost use Rattle.grids.specs.Refusals.{numbered, unless, kept_or};
ghost use Rattle.readings.specs.CellLists.{cells_read, cells_of, read_refusal};

use cells::Cell;
use grids::Refusal;

/// Whether the first `count` cells of the bytes all read as cells.
pub fn all_read<C: Cell>(count: usize, bytes: &[u8]) -> bool
    ensures { result ≡ is_some (cells_read C.Cell.reading count bytes.now) }
{
    if bytes.len() / C::BYTES < count {
        return false;
    }
    // A loop: `all` was tried, and no lemma of the library says which list the chunks yield.
    for cell in bytes.chunks_exact(C::BYTES).take(count) {
        if C::read(cell).is_none() {
            return false;
        }
    }
    true
}

/// Writes the first `count` cells of the bytes to the front of `cells`, and keeps the rest of it.
pub fn read_cells<C: Cell>(count: usize, bytes: &[u8], cells: &mut [C]) -> Result<(), Refusal>
    ensures answer { numbered result ≡ unless (read_refusal C.Cell.reading count bytes.now (length cells.old)) tt }
    ensures cells { cells.new ≡ kept_or (read_refusal C.Cell.reading count bytes.now (length cells.old)) cells.old (listed (cells_of C.Cell.reading count bytes.now) cells.old) }
{
    if cells.len() < count {
        return Err(Refusal::ShortStore);
    }
    if !all_read::<C>(count, bytes) {
        return Err(Refusal::NoCell);
    }
    copy_cells(count, bytes, cells);
    Ok(())
}

// Writes cells that are known to read and to have room.
fn copy_cells<C: Cell>(count: usize, bytes: &[u8], cells: &mut [C])
    requires room { count ≤ length cells.old }
    requires read { is_some (cells_read C.Cell.reading count bytes.now) ≡ true }
    ensures { cells.new ≡ listed (cells_of C.Cell.reading count bytes.now) cells.old }
{
    // By index: after a loop over `iter_mut` nothing is known of the cells.
    for (i, cell) in bytes.chunks_exact(C::BYTES).take(count).enumerate() {
        if let Some(x) = C::read(cell) {
            cells[i] = x;
        }
    }
}
