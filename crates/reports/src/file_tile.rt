ghost use Rattle.std.specs.Prelude.{◌≡◌, ◌++◌, IfOk, is_ok, if◌then◌else◌};
ghost use Rattle.grids.specs.Grids.{Valid, tile};
ghost use Rattle.engine.specs.Views.{viewed};
ghost use Rattle.records.specs.Marks.{tile as tile_mark};
ghost use Rattle.records.specs.Entries.{entry_of};
ghost use Rattle.records.specs.Sound.{Sound};

use cells::Cell;
use engine::TileView;
use records::Body;
use std::alloc::{AllocError, Global};
use std::marker::PhantomData;

/// A tile of a file, its cells as they stand there; they all read.
// They are read when they are needed, into memory of the report's: memory of its own for each tile took
// twice the time on a file of many tiles.
#[derive(Drop)]
pub struct TileRecord<'f, C: Cell> {
    pub body: Body<'f>,
    kind: PhantomData<C>,
    ghost sound: { Sound C.Cell.reading 32 (entry_of tile_mark body) },
}

impl<'f, C: Cell> TileRecord<'f, C> {
    ghost use Rattle.reports.specs.Tiles.{body_tile};

    // A tile record that was read.
    pub(crate) fn new(body: Body<'f>) -> TileRecord<'f, C>
        requires { Sound C.Cell.reading 32 (entry_of tile_mark body) }
        ensures { result.body ≡ body.entry }
    {
        TileRecord {
            body,
            kind: PhantomData,
        }
    }

    /// A tile of its size, with the given cells.
    pub fn view<'c>(&self, cells: &'c [C]) -> TileView<'c, C>
        ensures { viewed result ≡ tile (body_tile C.Cell.reading self.now.body).rows (body_tile C.Cell.reading self.now.body).cols cells.now }
    {
        TileView {
            rows: self.body.rows,
            cols: self.body.cols,
            cells,
        }
    }
}

impl<C: Cell + Default> TileRecord<'_, C> {
    ghost use Rattle.reports.specs.Tiles.{body_tile};

    /// Reads its cells to the end of a list; all of them, or none where memory is wanting.
    pub fn read_to(&self, cells: &mut Vec<C>) -> Result<(), AllocError>
        ensures { cells.new.items ≡ (if is_ok result then cells.old.items ++ (body_tile C.Cell.reading self.now.body).cells else cells.old.items) }
    {
        let count = self.body.rows * self.body.cols;
        cells.reserve(count)?;
        for bytes in self.body.cells.chunks_exact(C::BYTES).take(count) {
            // All of them read; with a branch for one that does not, a random tile took half as long again.
            cells.push_reserved(C::read(bytes).unwrap_or_default());
        }
        Ok(())
    }
}

/// A tile of a file, its cells read into memory of its own.
#[derive(Drop)]
pub struct FileTile<C> {
    rows: usize,
    cols: usize,
    cells: Vec<C>,
    ghost valid: { Valid (tile rows cols cells.items) },
}

impl<C: Copy> FileTile<C> {
    ghost use Rattle.reports.specs.Tiles.{shown};

    /// The tile, lent.
    pub fn view(&self) -> TileView<'_, C>
        ensures { viewed result ≡ shown self.now }
    {
        TileView {
            rows: self.rows,
            cols: self.cols,
            cells: self.cells.as_slice(),
        }
    }
}

impl<C: Cell + Default> FileTile<C> {
    ghost use Rattle.reports.specs.Tiles.{body_tile, shown};

    // Reads the cells of a tile record.
    pub(crate) fn read(heap: Global, tile: &TileRecord<'_, C>) -> Result<FileTile<C>, AllocError>
        ensures { IfOk result (λ t. shown t ≡ body_tile C.Cell.reading tile.now.body) }
    {
        let mut cells = Vec::new(heap);
        tile.read_to(&mut cells)?;
        Ok(FileTile {
            rows: tile.body.rows,
            cols: tile.body.cols,
            cells,
        })
    }
}
