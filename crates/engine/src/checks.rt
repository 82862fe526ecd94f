ghost use Rattle.std.specs.Prelude.{◌≡◌};
ghost use Rattle.grids.specs.Grids.{Valid};
ghost use Rattle.grids.specs.Refusals.{first_failed, numbered, numbered_by, unless};
ghost use Rattle.engine.specs.Views.{viewed};
ghost use Rattle.engine.specs.Finding.{tile_checks, work_checks, find_refusal};

use crate::TileView;
use grids::{Refusal, sized};

/// A lent tile that has passed its checks.
#[derive(Drop)]
pub struct ValidTile<'a, C> {
    pub view: TileView<'a, C>,
    ghost valid: { Valid (viewed view) },
}

impl<'a, C: Copy> TileView<'a, C> {
    /// The tile as a valid one; refuses a wrong size, and then a wrong length.
    pub fn check(&self) -> Result<ValidTile<'a, C>, Refusal>
        ensures { numbered_by (λ v. viewed v.view) result ≡ unless (first_failed (tile_checks (viewed self.now))) (viewed self.now) }
    {
        if !sized(self.rows, self.cols, 32) {
            return Err(Refusal::TileSize);
        }
        if self.cells.len() != self.rows * self.cols {
            return Err(Refusal::TileLength);
        }
        Ok(ValidTile { view: *self })
    }
}

/// Refuses a work table of too few words.
pub fn check_work(words: usize) -> Result<(), Refusal>
    ensures { numbered result ≡ unless (first_failed (work_checks words)) tt }
{
    if words < 12288 {
        return Err(Refusal::ShortWork);
    }
    Ok(())
}

/// Refuses what find refuses: the tile, and then a work table of so many words.
// For callers who would know it beforehand.
pub fn check_find<C: Copy>(tile: &TileView<'_, C>, words: usize) -> Result<(), Refusal>
    ensures { numbered result ≡ unless (find_refusal (viewed tile.now) words) tt }
{
    tile.check()?;
    check_work(words)
}
