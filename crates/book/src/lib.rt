//! The fault book: its table of tiles, whose cells are in a lent store, and the calls on both.
#![tactic(auto)]

ghost use Rattle.std.specs.Prelude.{◌≡◌, ℕ, ◌<◌, ◌≤◌, length, slice_index_or};
ghost use Rattle.book.specs.Table.{Sized, no_entry};

mod enter;
mod held_tiles;
mod judge;
mod table;

/// What a book's table keeps of a tile: its size, and how often it stopped a draft.
#[derive(Clone, Copy, Default)]
pub struct TableEntry {
    rows: u8,
    cols: u8,
    stops: u16,
}

/// What judge answers: how many tiles have a place in the draft, and the looks for all tiles.
// Not Found, which counts places.
#[derive(Clone, Copy, PartialEq, Eq, Debug)]
pub struct Verdict {
    pub found: usize,
    pub looks: u64,
}

/// Up to 32 different tiles in book order. Their cells fill the front of a store, which the caller
/// lends to each call.
#[derive(Drop)]
pub struct Book {
    // An array and a count, since the library allocates nothing.
    entries: [TableEntry; 32],
    count: usize,
    trimmed: bool,
    ghost few: { count ≤ 32 },
    ghost long: { length entries ≡ 32 },
    // Of the entries held alone, so it is a fact of the book and not of an entry: the rest are empty.
    ghost sized: { (n : ℕ) → n < count → Sized (slice_index_or entries n no_entry) },
}
