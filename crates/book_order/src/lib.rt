//! Book order: which of two tiles is before the other, and whether they are the same.
#![tactic(auto)]

ghost use Rattle.std.specs.Prelude.{◌≡◌, Decides};
ghost use Rattle.grids.specs.Grids.{Valid};
ghost use Rattle.grids.specs.Kinds.{Lawful};
ghost use Rattle.engine.specs.Views.{viewed};
ghost use Rattle.book_order.specs.Orders.{tiles};
ghost use Rattle.book_order.specs.Words.{Before};

use cells::Cell;
use engine::TileView;

/// Whether two tiles have the same size and the same cells.
pub fn tile_same<C: Cell>(a: &TileView<'_, C>, b: &TileView<'_, C>) -> bool
    ensures answer { result ≡ (tiles C.Cell.kind).same (viewed a.now) (viewed b.now) }
    ensures equal { Decides result (viewed a.now ≡ viewed b.now) }
{
    a == b
}

/// Whether a tile is before another in book order: fewer rows, then fewer columns, then the cell that
/// is before at the first cell that differs.
pub fn tile_before<C: Cell>(a: &TileView<'_, C>, b: &TileView<'_, C>) -> bool
    ensures answer { result ≡ (tiles C.Cell.kind).before (viewed a.now) (viewed b.now) }
    ensures words { Valid (viewed a.now) → Valid (viewed b.now) → Decides result (Before C.Cell.kind (viewed a.now) (viewed b.now)) }
    ensures order { Lawful (tiles C.Cell.kind) }
{
    a < b
}
