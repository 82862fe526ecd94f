//! The lowest layer: refusals, positions and answers, and the theory of grids, tiles and places.
#![tactic(auto)]

ghost use Rattle.std.specs.Prelude.{◌≡◌, ◌&&◌};
ghost use Rattle.grids.specs.Numbers.{number};
ghost use Rattle.grids.specs.Refusals.{between};

/// A row and a column, counted from 0.
#[derive(Clone, Copy, PartialEq, Eq, Debug, Default)]
pub struct Position {
    pub row: usize,
    pub col: usize,
}

/// What find answers: how many places there are, and how often it looked at the draft.
#[derive(Clone, Copy, PartialEq, Eq, Debug)]
pub struct Found {
    pub places: usize,
    pub looks: u64,
}

/// Why a call is refused. The cases stand in the order of their numbers.
#[derive(Clone, Copy, PartialEq, Eq, Debug)]
pub enum Refusal {
    /// A tile with 0 or over 32 rows or columns.
    TileSize,
    /// Tile cells whose count is not rows × columns.
    TileLength,
    /// A tile that the book already holds.
    TileHeld,
    /// A 33rd tile.
    BookFull,
    /// A number without a tile.
    NoSuchTile,
    /// A comparison with a book that is not trimmed.
    NotTrimmed,
    /// A store with fewer cells than the call needs.
    ShortStore,
    /// A work table of fewer than 12,288 words.
    ShortWork,
    /// A draft whose size is outside the limits.
    DraftSize,
    /// A draft with a wrong number of cells or bytes.
    DraftLength,
    /// A tie-up, shaft or treadle outside its range.
    LoomRange,
    /// A window with no cells, or past the edge.
    WindowEdge,
    /// A record whose mark is unknown.
    UnknownMark,
    /// A record that is cut short.
    CutShort,
    /// Bytes that read as no cell.
    NoCell,
}

impl Refusal {
    /// The number by which users know the refusal.
    // Not From: four refusals share a number, so nothing converts back.
    pub fn number(self) -> u8
        ensures { result ≡ number self }
    {
        match self {
            Refusal::TileSize => 1,
            Refusal::TileLength => 2,
            Refusal::TileHeld => 3,
            Refusal::BookFull => 4,
            Refusal::NoSuchTile => 5,
            Refusal::NotTrimmed => 6,
            Refusal::ShortStore => 7,
            Refusal::ShortWork => 8,
            Refusal::DraftSize => 9,
            Refusal::DraftLength => 9,
            Refusal::LoomRange => 9,
            Refusal::WindowEdge => 9,
            Refusal::UnknownMark => 10,
            Refusal::CutShort => 11,
            Refusal::NoCell => 12,
        }
    }
}

/// Whether a size has 1 to `most` rows, and 1 to `most` columns.
// Rows and columns stay two numbers: a type of them would be taken apart at each use.
pub fn sized(rows: usize, cols: usize, most: usize) -> bool
    ensures { result ≡ (between 1 most rows && between 1 most cols) }
{
    (1..=most).contains(&rows) && (1..=most).contains(&cols)
}
