//! A report that has each tile in memory of its own: which tiles it is handed, and which lines it adds.
ghost use Rattle.std.specs.Prelude.{◌≡◌, List, [], ◌∷◌, ◌++◌, map, length, OnOk};
ghost use Rattle.grids.specs.Grids.{Tile};
ghost use Rattle.lines.specs.declared.Line.TheVariants.{Draft as DraftLine};
ghost use Rattle.reports.specs.Tiles.{shown};

use cells::{Cell, Lift, Thread};
use drafts::Draft;
use lines::Line;
use reports::{FileTile, Report, report_file};
use std::alloc::AllocError;
use std::process::Abort;
use std::test::Fail;

/// The tiles of a file so far. Of a draft it says how many there are.
#[derive(Drop)]
struct Kept<C> {
    tiles: Vec<FileTile<C>>,
}

impl<C: Cell> Report<C> for Kept<C> {
    ghost State = { List (Tile C) };

    ghost state = { λ k. map shown k.tiles.items };

    ghost telling = { record { tile_lines = λ ts t. []; tile_state = λ ts t. ts ++ t ∷ []; draft_lines = λ ts g. DraftLine g.rows g.cols (length ts) ∷ []; draft_state = λ ts g. ts } };

    fn tile(&mut self, tile: FileTile<C>, lines: &mut Vec<Line>) -> Result<(), AllocError>
        ensures lines { OnOk result (lines.new.items ≡ lines.old.items ++ []) }
        ensures state { OnOk result (map shown self.new.tiles.items ≡ map shown self.old.tiles.items ++ shown tile ∷ []) }
    {
        self.tiles.push(tile)?;
        Ok(())
    }

    fn draft<D: Draft<Cell = C>>(
        &mut self,
        draft: &mut D,
        lines: &mut Vec<Line>,
    ) -> Result<(), AllocError> {
        lines.push(Line::Draft {
            rows: draft.rows(),
            cols: draft.cols(),
            tiles: self.tiles.len(),
        })?;
        Ok(())
    }
}

/// Rows, columns and cells of a tile.
struct Seen<C: 'static>(usize, usize, &'static [C]);

/// A file, the tiles in it, and the lines of it.
struct Handed<C: 'static>(&'static [u8], &'static [Seen<C>], &'static [Line]);

const UP: Lift = Lift::Raised;

const DOWN: Lift = Lift::Sunk;

const RED: Thread = Thread {
    colour: 258,
    ply: 3,
};

const BLUE: Thread = Thread { colour: 4, ply: 5 };

static LIFT_FILES: [Handed<Lift>; 6] = [
    Handed(b"", &[], &[]),
    Handed(
        b"TL\x01\x00\x03\x00#..",
        &[Seen(1, 3, &[UP, DOWN, DOWN])],
        &[],
    ),
    // two tiles before a draft and one after it
    Handed(
        b"TL\x02\x00\x01\x00.#TL\x01\x00\x02\x00#.DR\x01\x00\x02\x00##TL\x01\x00\x01\x00.",
        &[
            Seen(2, 1, &[DOWN, UP]),
            Seen(1, 2, &[UP, DOWN]),
            Seen(1, 1, &[DOWN]),
        ],
        &[Line::Draft {
            rows: 1,
            cols: 2,
            tiles: 2,
        }],
    ),
    // two drafts
    Handed(
        b"DR\x02\x00\x01\x00.#TL\x01\x00\x01\x00#DR\x01\x00\x01\x00#",
        &[Seen(1, 1, &[UP])],
        &[
            Line::Draft {
                rows: 2,
                cols: 1,
                tiles: 0,
            },
            Line::Draft {
                rows: 1,
                cols: 1,
                tiles: 1,
            },
        ],
    ),
    // a fault after a tile
    Handed(
        b"TL\x01\x00\x01\x00#XX",
        &[Seen(1, 1, &[UP])],
        &[Line::Fault { number: 10, at: 7 }],
    ),
    // a tile with a byte that is no cell
    Handed(
        b"TL\x01\x00\x01\x00X",
        &[],
        &[Line::Fault { number: 12, at: 0 }],
    ),
];

static THREAD_FILES: [Handed<Thread>; 1] = [Handed(
    b"TL\x02\x00\x01\x00\x02\x01\x03\x04\x00\x05DR\x01\x00\x01\x00\x04\x00\x05",
    &[Seen(2, 1, &[RED, BLUE])],
    &[Line::Draft {
        rows: 1,
        cols: 1,
        tiles: 1,
    }],
)];

fn verify_tile<C: Cell>(rt: &impl Abort, tile: &FileTile<C>, seen: &Seen<C>, at: usize) {
    let Seen(rows, cols, cells) = seen;
    let view = tile.view();
    assert_eq!(rt; (view.rows, view.cols), (*rows, *cols), "case {at}");
    assert!(rt; view.cells == *cells, "case {at}");
}

fn verify_files<C: Cell + Default>(
    rt: &(impl Abort + AllocGlobal),
    files: &[Handed<C>],
) -> Result<(), Fail> {
    let heap = rt.alloc();
    for (i, Handed(file, seen, lines)) in files.iter().enumerate() {
        let mut kept = Kept::<C> {
            tiles: Vec::new(heap),
        };
        let told = report_file(heap, &mut kept, file)?;
        assert!(rt; told.as_slice() == *lines, "case {i}");
        assert_eq!(rt; kept.tiles.len(), seen.len(), "case {i}");
        for (n, tile) in kept.tiles.iter().enumerate() {
            verify_tile(rt, tile, &seen[n], i);
        }
    }
    Ok(())
}

#[test]
fn files_hand_on_their_tiles(rt: HostRuntime) -> Result<(), Fail> {
    verify_files(&rt, &LIFT_FILES)?;
    verify_files(&rt, &THREAD_FILES)
}

/// The front of a file, how often the byte `#` follows, the lines of the file, and how many tiles are in
/// it, of which each takes all these bytes.
struct Long(&'static [u8], usize, &'static [Line], usize);

static LONG_FILES: [Long; 3] = [
    // 65,535 bytes, and one more
    Long(
        b"DR\x51\x00\x29\x03",
        65529,
        &[Line::Draft {
            rows: 81,
            cols: 809,
            tiles: 0,
        }],
        0,
    ),
    Long(b"DR\x51\x00\x29\x03", 65530, &[Line::TooLong], 0),
    // 32 rows and columns of a tile
    Long(b"TL\x20\x00\x20\x00", 1024, &[], 1),
];

#[test]
fn files_and_tiles_are_taken_up_to_their_limits(rt: HostRuntime) -> Result<(), Fail> {
    let heap = rt.alloc();
    for (i, Long(front, count, lines, tiles)) in LONG_FILES.iter().enumerate() {
        let mut file = front.to_vec(heap)?;
        let rest = vec![in heap; b'#'; *count]?;
        file.extend_from_slice(rest.as_slice())?;
        let mut kept = Kept::<Lift> {
            tiles: Vec::new(heap),
        };
        let told = report_file(heap, &mut kept, file.as_slice())?;
        assert!(rt; told.as_slice() == *lines, "case {i}");
        assert_eq!(rt; kept.tiles.len(), *tiles, "case {i}");
        for tile in kept.tiles.iter() {
            assert_eq!(rt; tile.view().cells.len(), *count, "case {i}");
        }
    }
    Ok(())
}
