//! Finding a tile.
use crate::attempt::{Attempt, Outcome, tell_all};
use cells::Lift;
use engine::TileView;
use plain::find;
use sheets::CellSheet;
use std::alloc::Global;
use std::fmt;

/// Rows, columns and count of cells of a tile, and the words of the work table.
struct Find((usize, usize), usize, usize);

static FINDS: [Find; 9] = [
    Find((32, 32), 1024, 12288),
    Find((33, 1), 33, 12288),
    Find((1, 33), 33, 12288),
    Find((0, 1), 0, 12288),
    Find((1, 0), 0, 12288),
    Find((2, 3), 6, 12288),
    Find((2, 3), 5, 12288),
    Find((2, 3), 7, 12288),
    Find((2, 3), 6, 12287),
];

impl fmt::Display for Find {
    fn fmt<W: fmt::Write>(&self, f: &mut fmt::Formatter<W>) -> fmt::Result {
        let Find((rows, cols), count, words) = self;
        write!(
            f,
            "find a {rows} by {cols} tile of {count} cells with a work table of {words} words"
        )
    }
}

impl Attempt for Find {
    fn outcome(&self, heap: Global) -> anyhow::Result<Outcome> {
        let Find((rows, cols), count, words) = self;
        let cells = vec![in heap; Lift::default(); *count]?;
        let mut work = vec![in heap; 0u32; *words]?;
        let tile = TileView {
            rows: *rows,
            cols: *cols,
            cells: cells.as_slice(),
        };
        let row = [Lift::default()];
        let answer = CellSheet::over(1, 1, &row).and_then(|mut draft| {
            find(&mut draft, &tile, work.as_mut_slice(), &mut [])
        });
        Ok(answer.into())
    }
}

/// Tries finds.
pub(crate) fn tell(rt: &HostRuntime) -> anyhow::Result<()> {
    tell_all(rt, &FINDS)
}
