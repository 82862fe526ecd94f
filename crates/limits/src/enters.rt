//! Entering a tile in a book.
use crate::attempt::{Attempt, Outcome, tell_all};
use crate::book_with::book_with;
use cells::Lift;
use engine::TileView;
use std::alloc::Global;
use std::fmt;

/// Rows, columns and count of cells of a tile, how many tiles the book holds before, and the cells of
/// the store.
struct Enter((usize, usize), usize, usize, usize);

static ENTERS: [Enter; 12] = [
    Enter((32, 32), 1024, 0, 1024),
    Enter((32, 32), 1024, 0, 1023),
    Enter((33, 1), 33, 0, 1024),
    Enter((1, 33), 33, 0, 1024),
    Enter((0, 1), 0, 0, 1024),
    Enter((1, 0), 0, 0, 1024),
    Enter((2, 3), 5, 0, 1024),
    Enter((2, 3), 7, 0, 1024),
    // 31 tiles have 496 cells, 32 tiles have 528
    Enter((1, 32), 32, 31, 528),
    Enter((1, 32), 32, 31, 527),
    Enter((2, 1), 2, 32, 530),
    // the book holds this tile
    Enter((1, 2), 2, 31, 498),
];

impl fmt::Display for Enter {
    fn fmt<W: fmt::Write>(&self, f: &mut fmt::Formatter<W>) -> fmt::Result {
        let Enter((rows, cols), count, tiles, cells) = self;
        write!(
            f,
            "enter a {rows} by {cols} tile of {count} cells in a book of {tiles} tiles with a store of {cells} cells"
        )
    }
}

impl Attempt for Enter {
    fn outcome(&self, heap: Global) -> anyhow::Result<Outcome> {
        let Enter((rows, cols), count, tiles, cells) = self;
        let mut store = vec![in heap; Lift::default(); *cells]?;
        let mut book = book_with(heap, store.as_mut_slice(), *tiles)?;
        let lent = vec![in heap; Lift::default(); *count]?;
        let tile = TileView {
            rows: *rows,
            cols: *cols,
            cells: lent.as_slice(),
        };
        Ok(book.enter(store.as_mut_slice(), &tile).into())
    }
}

/// Tries to enter tiles.
pub(crate) fn tell(rt: &HostRuntime) -> anyhow::Result<()> {
    tell_all(rt, &ENTERS)
}
