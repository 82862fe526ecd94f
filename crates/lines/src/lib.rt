//! Lines of output, and how each is written.
#![tactic(auto)]

ghost use Rattle.std.specs.Prelude.{◌≡◌, IfOk, Some, string_bytes};
ghost use Rattle.lines.specs.Rendering.{rendered, page};

use std::alloc::Global;
use std::fmt;

/// A line of output.
#[derive(Clone, Copy, PartialEq, Eq, Debug)]
pub enum Line {
    /// A place of the tile with a number.
    Place {
        tile: usize,
        row: usize,
        col: usize,
    },
    /// How many places the tile has, and how many looks finding them took.
    Tile {
        tile: usize,
        places: usize,
        looks: u64,
    },
    /// The size of a draft, and for how many tiles it was looked through.
    Draft {
        rows: usize,
        cols: usize,
        tiles: usize,
    },
    /// The size of a tile that was entered, and its number in the book.
    Entered {
        rows: usize,
        cols: usize,
        number: usize,
    },
    /// The number of the refusal of a tile that was not entered.
    Refused {
        // A number: promises tell refusals by number, which four of them share.
        number: u8,
    },
    /// The size of a draft in which no tile of the book was found.
    Passed {
        rows: usize,
        cols: usize,
    },
    /// The size of a draft, and how many tiles of the book were found in it.
    Stopped {
        rows: usize,
        cols: usize,
        tiles: usize,
    },
    /// A fault of the file, and the byte where its record begins.
    Fault {
        // As in Refused.
        number: u8,
        at: usize,
    },
    /// The input is too long.
    TooLong,
}

impl fmt::Display for Line {
    ghost output = { λ l. Some (rendered l) };

    fn fmt<W: fmt::Write>(&self, f: &mut fmt::Formatter<W>) -> fmt::Result {
        match *self {
            Line::Place { tile, row, col } => writeln!(f, "{tile} {row} {col}"),
            Line::Tile {
                tile,
                places,
                looks,
            } => writeln!(f, "tile {tile} places {places} looks {looks}"),
            Line::Draft { rows, cols, tiles } => writeln!(f, "draft {rows} {cols} tiles {tiles}"),
            Line::Entered { rows, cols, number } => writeln!(f, "tile {rows} {cols} at {number}"),
            Line::Refused { number } => writeln!(f, "refused {number}"),
            Line::Passed { rows, cols } => writeln!(f, "draft {rows} {cols} passed"),
            Line::Stopped { rows, cols, tiles } => writeln!(
                f,
                "draft {rows} {cols} stopped {tiles}"
            ),
            Line::Fault { number, at } => writeln!(f, "fault {number} at {at}"),
            Line::TooLong => writeln!(f, "too long"),
        }
    }
}

/// The text of some lines.
pub fn render(heap: Global, lines: &[Line]) -> Result<String, fmt::Error>
    ensures { IfOk result (λ s. string_bytes s ≡ page lines.now) }
{
    let mut text = String::new(heap);
    for line in lines {
        write!(text, "{line}")?;
    }
    Ok(text)
}
