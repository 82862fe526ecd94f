//! Making a cell sheet and a byte sheet.
use crate::attempt::{Attempt, Outcome, tell_all};
use cells::Lift;
use sheets::{ByteSheet, CellSheet};
use std::alloc::Global;
use std::fmt;

/// Rows and columns of a cell sheet, and a count of cells.
struct Cells((usize, usize), usize);

/// Rows and columns of a byte sheet of lifts, and a count of bytes that are all the same.
struct Bytes((usize, usize), usize, u8);

static CELL_SHEETS: [Cells; 9] = [
    Cells((1, 2048), 2048),
    Cells((1, 2049), 2049),
    Cells((2048, 1), 2048),
    Cells((2049, 1), 2049),
    Cells((0, 1), 0),
    Cells((1, 0), 0),
    Cells((2, 3), 6),
    Cells((2, 3), 5),
    Cells((2, 3), 7),
];

static BYTE_SHEETS: [Bytes; 10] = [
    Bytes((1, 2048), 2048, b'.'),
    Bytes((1, 2049), 2049, b'.'),
    Bytes((2048, 1), 2048, b'.'),
    Bytes((2049, 1), 2049, b'.'),
    Bytes((0, 1), 0, b'.'),
    Bytes((1, 0), 0, b'.'),
    Bytes((2, 3), 6, b'.'),
    Bytes((2, 3), 5, b'.'),
    Bytes((2, 3), 7, b'.'),
    Bytes((2, 3), 6, b'X'),
];

impl fmt::Display for Cells {
    fn fmt<W: fmt::Write>(&self, f: &mut fmt::Formatter<W>) -> fmt::Result {
        let Cells((rows, cols), count) = self;
        write!(f, "make a {rows} by {cols} cell sheet of {count} cells")
    }
}

impl fmt::Display for Bytes {
    fn fmt<W: fmt::Write>(&self, f: &mut fmt::Formatter<W>) -> fmt::Result {
        let Bytes((rows, cols), count, byte) = self;
        let shown = *byte as char;
        write!(
            f,
            "make a {rows} by {cols} byte sheet of {count} bytes `{shown}`"
        )
    }
}

impl Attempt for Cells {
    fn outcome(&self, heap: Global) -> anyhow::Result<Outcome> {
        let Cells((rows, cols), count) = self;
        let cells = vec![in heap; Lift::default(); *count]?;
        Ok(CellSheet::over(*rows, *cols, cells.as_slice()).into())
    }
}

impl Attempt for Bytes {
    fn outcome(&self, heap: Global) -> anyhow::Result<Outcome> {
        let Bytes((rows, cols), count, byte) = self;
        let bytes = vec![in heap; *byte; *count]?;
        Ok(ByteSheet::<Lift>::over(*rows, *cols, bytes.as_slice()).into())
    }
}

/// Tries sheets of both sorts.
pub(crate) fn tell(rt: &HostRuntime) -> anyhow::Result<()> {
    tell_all(rt, &CELL_SHEETS)?;
    tell_all(rt, &BYTE_SHEETS)
}
