//! Books to try calls on.
use anyhow::Context;
use book::Book;
use cells::Lift;
use engine::TileView;
use std::alloc::Global;

/// A book of so many tiles: of 1 row and 1 column, of 1 row and 2 columns, and so on.
pub(crate) fn book_with(heap: Global, store: &mut [Lift], tiles: usize) -> anyhow::Result<Book> {
    let row = vec![in heap; Lift::default(); tiles]?;
    let mut book = Book::new();
    for n in 1..=tiles {
        let tile = TileView {
            rows: 1,
            cols: n,
            cells: &row.as_slice()[..n],
        };
        book.enter(store, &tile)
            .ok()
            .context("a tile of the book was refused")?;
    }
    Ok(book)
}
