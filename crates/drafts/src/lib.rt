//! Drafts: grids that are looked at cell by cell, and that count the looks.
#![tactic(auto)]

ghost use Rattle.std.specs.Prelude.{◌≡◌, ℕ, ◌^◌, ◌<◌};
ghost use Rattle.grids.specs.Grids.{Grid, Drawn};
ghost use Rattle.drafts.specs.Tallies.{counted};

use cells::Cell;

/// A grid of cells that is seen only by looking, and that counts the looks.
pub trait Draft {
    type Cell: Cell;

    /// The size and the cells.
    ghost shows: { Self → Grid Self.Cell };

    /// How many looks there have been, modulo 2^64.
    ghost tally: { Self → ℕ };

    /// How many rows there are.
    fn rows(&self) -> usize
        ensures { result ≡ (shows self.now).rows };

    /// How many columns there are.
    fn cols(&self) -> usize
        ensures { result ≡ (shows self.now).cols };

    /// The cell at a position, and one look more; nothing, and no look, outside.
    // Whoever is lent a draft promises `same` again: no ghost field can stand beside a `&mut`.
    fn look(&mut self, row: usize, col: usize) -> Option<Self::Cell>
        ensures cell { result ≡ (shows self.old).at row col }
        ensures same { shows self.new ≡ shows self.old }
        ensures counts { tally self.new ≡ counted (shows self.old) row col (tally self.old) };

    // Its size is within the limits of a draft, with a cell exactly inside.
    ghost drawn: { (s : Self) → Drawn (shows s) };

    ghost fits: { (s : Self) → tally s < 2 ^ 64 };
}
