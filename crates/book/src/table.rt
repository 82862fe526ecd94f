//! Making a book, and the questions about its table.
ghost use Rattle.std.specs.Prelude.{◌≡◌, ◌*◌, ◌≤◌, true, [], length, take, sum_by, slice_index, slice_index_or};
ghost use Rattle.grids.specs.Refusals.{unless, numbered};
ghost use Rattle.book.specs.Table.{no_entry, size_of, area};
ghost use Rattle.book.specs.Models.{entries_held, sizes, stop_counts, is_trimmed, number_refusal};

use crate::{Book, TableEntry};
use grids::Refusal;

impl TableEntry {
    // How many cells the tile has.
    pub(crate) fn cells(&self) -> usize
        ensures { result ≡ area (size_of self.now) }
    {
        self.rows as usize * self.cols as usize
    }
}

impl Book {
    /// A book with no tile, whatever is in its store. It counts as trimmed.
    pub fn new() -> Book
        ensures tiles { sizes result ≡ [] }
        ensures stops { stop_counts result ≡ [] }
        ensures trimmed { is_trimmed result ≡ true }
    {
        Book {
            entries: [TableEntry::default(); 32],
            count: 0,
            trimmed: true,
        }
    }

    /// How many tiles the book holds.
    pub fn count(&self) -> usize
        ensures { result ≡ length (sizes self.now) }
    {
        self.count
    }

    /// The rows and columns of the tile with a number.
    pub fn size(&self, number: usize) -> Result<(usize, usize), Refusal>
        ensures { numbered result ≡ unless (number_refusal (length (sizes self.now)) number) (slice_index_or (sizes self.now) number (0, 0)) }
    {
        let entry = self.entry(number)?;
        Ok((entry.rows as usize, entry.cols as usize))
    }

    /// How often the tile with a number stopped a draft; 65,535 stays.
    pub fn stops(&self, number: usize) -> Result<u16, Refusal>
        ensures { numbered result ≡ unless (number_refusal (length (stop_counts self.now)) number) (slice_index (stop_counts self.now) number) }
    {
        Ok(self.entry(number)?.stops)
    }

    // The entry with a number.
    pub(crate) fn entry(&self, number: usize) -> Result<TableEntry, Refusal>
        ensures { numbered result ≡ unless (number_refusal (length (entries_held self.now)) number) (slice_index_or (entries_held self.now) number no_entry) }
    {
        self.entries[..self.count]
            .get(number)
            .copied()
            .ok_or(Refusal::NoSuchTile)
    }

    // Where the cells of a tile begin in the store; at the number of tiles, where they all end.
    pub(crate) fn start(&self, number: usize) -> usize
        requires { number ≤ self.now.count }
        ensures { result ≡ sum_by area (take number (sizes self.now)) }
    {
        self.entries[..number].iter().map(TableEntry::cells).sum()
    }

    // How many cells all tiles have.
    pub(crate) fn cells_held(&self) -> usize
        ensures { result ≡ sum_by area (sizes self.now) }
    {
        self.start(self.count)
    }
}
