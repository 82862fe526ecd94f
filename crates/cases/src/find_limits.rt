//! Which tiles find takes, what it answers, and what it leaves in the list of places.
use cells::{Cell, Lift, Thread};
use engine::TileView;
use grids::{Found, Position, Refusal};
use plain::find;
use sheets::CellSheet;
use std::process::Abort;
use std::test::Fail;

/// A find in a draft, where the draft and the tile have one cell everywhere: rows and columns of the
/// draft; rows, columns and count of cells of the tile; the words of the work table; the answer,
/// places and looks; and what a list for two then holds, which held M in both entries.
#[derive(Drop)]
struct Find(
    (usize, usize),
    (usize, usize, usize),
    usize,
    Result<(usize, u64), Refusal>,
    // A pair, since the check takes no table of rows that hold an array of positions.
    (Position, Position),
);

/// Why a find in a draft of 40 by 40 is refused: rows, columns and count of cells of the tile, the
/// words of the work table, and the refusal.
struct Refused((usize, usize, usize), usize, Refusal);

const MOST: usize = usize::MAX;

const M: Position = Position { row: 7, col: 9 };

const AT00: Position = Position { row: 0, col: 0 };

const AT01: Position = Position { row: 0, col: 1 };

const AT10: Position = Position { row: 1, col: 0 };

static FINDS: [Find; 13] = [
    // three places, two, one and none
    Find((1, 4), (1, 2, 2), 12288, Ok((3, 6)), (AT00, AT01)),
    Find((4, 1), (2, 1, 2), 12288, Ok((3, 6)), (AT00, AT10)),
    Find((2, 1), (1, 1, 1), 12288, Ok((2, 2)), (AT00, AT10)),
    Find((3, 4), (3, 4, 12), 12288, Ok((1, 12)), (AT00, M)),
    Find((3, 4), (1, 5, 5), 12288, Ok((0, 0)), (M, M)),
    Find((3, 4), (4, 1, 4), 12288, Ok((0, 0)), (M, M)),
    // the smallest and the largest tiles
    Find((1, 1), (1, 1, 1), 12288, Ok((1, 1)), (AT00, M)),
    Find((1, 32), (1, 32, 32), 12288, Ok((1, 32)), (AT00, M)),
    Find((33, 1), (32, 1, 32), 12288, Ok((2, 64)), (AT00, AT10)),
    Find((33, 33), (32, 32, 1024), 12288, Ok((4, 4096)), (AT00, AT01)),
    // a word more than is needed
    Find((33, 33), (32, 32, 1024), 12289, Ok((4, 4096)), (AT00, AT01)),
    // the largest drafts
    Find(
        (32, 2048),
        (32, 32, 1024),
        12288,
        Ok((2017, 2065408)),
        (AT00, AT01),
    ),
    Find(
        (2048, 2048),
        (1, 1, 1),
        12288,
        Ok((4194304, 4194304)),
        (AT00, AT01),
    ),
];

static REFUSED: [Refused; 17] = [
    Refused((0, 1, 0), 12288, Refusal::TileSize),
    Refused((1, 0, 0), 12288, Refusal::TileSize),
    Refused((33, 1, 33), 12288, Refusal::TileSize),
    Refused((1, 33, 33), 12288, Refusal::TileSize),
    Refused((2, 3, 5), 12288, Refusal::TileLength),
    Refused((2, 3, 7), 12288, Refusal::TileLength),
    Refused((2, 3, 0), 12288, Refusal::TileLength),
    Refused((1, 1, 1), 12287, Refusal::ShortWork),
    Refused((1, 1, 1), 0, Refusal::ShortWork),
    // size and count are wrong
    Refused((33, 1, 1), 12288, Refusal::TileSize),
    Refused((0, 1, 1), 12288, Refusal::TileSize),
    Refused((MOST, 1, 1), 12288, Refusal::TileSize),
    Refused((1, MOST, 1), 12288, Refusal::TileSize),
    // size is wrong and words are short
    Refused((0, 1, 0), 12287, Refusal::TileSize),
    // count is wrong and words are short
    Refused((2, 3, 5), 12287, Refusal::TileLength),
    Refused((1, 1, 0), 0, Refusal::TileLength),
    // all are wrong
    Refused((1, 33, 1), 12287, Refusal::TileSize),
];

fn verify_find<C: Cell + Default>(
    rt: &(impl Abort + AllocGlobal),
    at: usize,
    case: &Find,
) -> Result<(), Fail> {
    let heap = rt.alloc();
    let Find((height, width), (rows, cols, count), words, answer, listed) = case;
    let area = vec![in heap; C::default(); height.saturating_mul(*width)]?;
    let cells = vec![in heap; C::default(); *count]?;
    let mut work = vec![in heap; 7u32; *words]?;
    let mut draft = CellSheet::over(*height, *width, area.as_slice())?;
    let tile = TileView {
        rows: *rows,
        cols: *cols,
        cells: cells.as_slice(),
    };
    let mut list = [M; 2];
    let found = find(&mut draft, &tile, work.as_mut_slice(), &mut list);
    let got = found.map(|Found { places, looks }| (places, looks));
    let [first, second] = list;
    assert!(rt; got == *answer && (first, second) == *listed, "case {at}");
    Ok(())
}

#[test]
fn finds_answer_all_places_and_list_those_that_fit(rt: HostRuntime) -> Result<(), Fail> {
    for (i, case) in FINDS.iter().enumerate() {
        verify_find::<Lift>(&rt, i, case)?;
        verify_find::<Thread>(&rt, i, case)?;
    }
    Ok(())
}

#[test]
fn refused_finds_leave_the_list(rt: HostRuntime) -> Result<(), Fail> {
    for (i, Refused(tile, words, refusal)) in REFUSED.iter().enumerate() {
        let case = Find((40, 40), *tile, *words, Err(*refusal), (M, M));
        verify_find::<Lift>(&rt, i, &case)?;
        verify_find::<Thread>(&rt, i, &case)?;
    }
    Ok(())
}
