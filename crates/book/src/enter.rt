//! Entering a tile.
ghost use Rattle.std.specs.Prelude.{◌≡◌, ◌+◌, ◌-◌, ◌<◌, ◌≤◌, false, ◌++◌, length, take, drop, IfOk, OnErr};
ghost use Rattle.std.specs.List.{insert};
ghost use Rattle.grids.specs.Refusals.{numbered};
ghost use Rattle.engine.specs.Views.{viewed};
ghost use Rattle.book.specs.Table.{Sized};
ghost use Rattle.book.specs.Models.{entries_held, is_trimmed, held};
ghost use Rattle.book.specs.Entering.{insertion_point, enter_answer, enter_refusal, entered, Enters, InsertionPoint};

use crate::{Book, TableEntry};
use cells::Cell;
use engine::TileView;
use grids::Refusal;

// Writes items into a list; those from there up to `total` move up.
fn insert<T: Copy>(list: &mut [T], at: usize, total: usize, items: &[T])
    requires order { at ≤ total }
    requires room { total + length items.now ≤ length list.old }
    ensures { list.new ≡ take at list.old ++ (items.now ++ (take (total - at) (drop at list.old) ++ drop (total + length items.now) list.old)) }
{
    let to = at + items.len();
    list.copy_within(at..total, to);
    list[at..to].copy_from_slice(items);
}

impl Book {
    /// Enters a tile. It goes before the first held tile that is not before it in book order, and
    /// its number is answered.
    pub fn enter<C: Cell>(
        &mut self,
        store: &mut [C],
        tile: &TileView<'_, C>,
    ) -> Result<usize, Refusal>
        ensures enters { Enters C.Cell.kind (held self.old store.old) (viewed tile.now) (numbered result) (held self.new store.new) }
        ensures place { IfOk result (λ n. InsertionPoint C.Cell.kind (viewed tile.now) (held self.old store.old).tiles n) }
        ensures untouched { OnErr result ((self.new ≡ self.old) × (store.new ≡ store.old)) }
    {
        let number = self.number_for(store, tile)?;
        self.put_in(store, tile, number);
        Ok(number)
    }

    // The number that a tile gets when it is entered.
    fn number_for<C: Cell>(&self, store: &[C], tile: &TileView<'_, C>) -> Result<usize, Refusal>
        ensures { numbered result ≡ enter_answer C.Cell.kind (held self.now store.now) (viewed tile.now) }
    {
        tile.check()?;
        if self.count == 32 {
            return Err(Refusal::BookFull);
        }
        let tiles = self.tiles_in(store, tile.cells.len())?;
        if tiles.holds(tile) {
            return Err(Refusal::TileHeld);
        }
        Ok(tiles.insertion_point(tile))
    }

    // Puts an accepted tile into table and store.
    fn put_in<C: Cell>(&mut self, store: &mut [C], tile: &TileView<'_, C>, number: usize)
        requires accepted { enter_refusal C.Cell.kind (held self.old store.old) (viewed tile.now) ≡ None }
        requires number { number ≡ insertion_point C.Cell.kind (viewed tile.now) (held self.old store.old).tiles }
        ensures { held self.new store.new ≡ entered C.Cell.kind (held self.old store.old) (viewed tile.now) }
    {
        insert(store, self.start(number), self.cells_held(), tile.cells);
        self.insert_entry(
            number,
            TableEntry {
                rows: tile.rows as u8,
                cols: tile.cols as u8,
                stops: 0,
            },
        );
    }

    // Puts an entry into the table; the book is no longer trimmed.
    fn insert_entry(&mut self, number: usize, entry: TableEntry)
        requires few { self.old.count < 32 }
        requires within { number ≤ self.old.count }
        requires sized { Sized entry }
        ensures entries { entries_held self.new ≡ insert (entries_held self.old) number entry }
        ensures trimmed { is_trimmed self.new ≡ false }
    {
        insert(&mut self.entries, number, self.count, &[entry]);
        self.count += 1;
        self.trimmed = false;
    }
}
