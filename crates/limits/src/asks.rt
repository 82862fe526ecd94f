//! Asking a book for a tile and for what it keeps of it.
use crate::attempt::{Attempt, Outcome, tell_all};
use crate::book_with::book_with;
use cells::Lift;
use std::alloc::Global;
use std::fmt;

/// What is asked of the tile with a number in a book of 32.
// Not a type for each question: all are asked of the same book, and differ in one line of each match.
enum Ask {
    Size(usize),
    Stops(usize),
    /// The tile itself; the store has so many cells.
    Tile(usize, usize),
}

static ASKS: [Ask; 7] = [
    Ask::Size(31),
    Ask::Size(32),
    Ask::Stops(31),
    Ask::Stops(32),
    Ask::Tile(31, 528),
    Ask::Tile(32, 528),
    Ask::Tile(31, 527),
];

impl fmt::Display for Ask {
    fn fmt<W: fmt::Write>(&self, f: &mut fmt::Formatter<W>) -> fmt::Result {
        match *self {
            Ask::Size(number) => {
                write!(f, "ask the size of tile {number} in a book of 32 tiles")
            }
            Ask::Stops(number) => write!(
                f,
                "ask the stop count of tile {number} in a book of 32 tiles"
            ),
            Ask::Tile(number, cells) => write!(
                f,
                "ask for tile {number} in a book of 32 tiles with a store of {cells} cells"
            ),
        }
    }
}

impl Attempt for Ask {
    fn outcome(&self, heap: Global) -> anyhow::Result<Outcome> {
        let mut store = vec![in heap; Lift::default(); 528]?;
        let book = book_with(heap, store.as_mut_slice(), 32)?;
        Ok(match *self {
            Ask::Size(number) => book.size(number).into(),
            Ask::Stops(number) => book.stops(number).into(),
            Ask::Tile(number, cells) => {
                store.truncate(cells);
                book.tile(store.as_slice(), number).into()
            }
        })
    }
}

/// Tries the questions.
pub(crate) fn tell(rt: &HostRuntime) -> anyhow::Result<()> {
    tell_all(rt, &ASKS)
}
