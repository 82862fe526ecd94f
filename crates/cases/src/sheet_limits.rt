//! Of which sizes, cells and bytes a sheet is made, and what it shows.
use cells::{Cell, Lift, Thread};
use drafts::Draft;
use grids::Refusal;
use sheets::{ByteSheet, CellSheet};
use std::process::Abort;
use std::test::Fail;

/// Rows and columns, a count of cells, and why no sheet is made of them.
struct Sheet((usize, usize), usize, Option<Refusal>);

/// Rows and columns of lifts, their bytes, and why no byte sheet is made of them.
struct Bytes((usize, usize), &'static [u8], Option<Refusal>);

/// A look at the draft `#..` over `..#`: row, column, and what is seen.
struct Look(usize, usize, Option<Lift>);

const MOST: usize = usize::MAX;

static SHEETS: [Sheet; 17] = [
    Sheet((1, 1), 1, None),
    Sheet((1, 2048), 2048, None),
    Sheet((2048, 1), 2048, None),
    Sheet((2, 3), 6, None),
    Sheet((0, 1), 0, Some(Refusal::DraftSize)),
    Sheet((1, 0), 0, Some(Refusal::DraftSize)),
    Sheet((0, 0), 0, Some(Refusal::DraftSize)),
    Sheet((2049, 1), 2049, Some(Refusal::DraftSize)),
    Sheet((1, 2049), 2049, Some(Refusal::DraftSize)),
    Sheet((2, 3), 5, Some(Refusal::DraftLength)),
    Sheet((2, 3), 7, Some(Refusal::DraftLength)),
    Sheet((2, 3), 0, Some(Refusal::DraftLength)),
    Sheet((2048, 2048), 1, Some(Refusal::DraftLength)),
    // size and count are wrong
    Sheet((2049, 1), 1, Some(Refusal::DraftSize)),
    Sheet((1, 0), 1, Some(Refusal::DraftSize)),
    Sheet((MOST, 1), 1, Some(Refusal::DraftSize)),
    Sheet((1, MOST), 1, Some(Refusal::DraftSize)),
];

static BYTES: [Bytes; 8] = [
    Bytes((1, 2), b"#.", None),
    Bytes((2, 1), b"#.", None),
    Bytes((1, 2), b"X.", Some(Refusal::NoCell)),
    Bytes((1, 2), b".X", Some(Refusal::NoCell)),
    // length and byte are wrong
    Bytes((1, 3), b".X", Some(Refusal::DraftLength)),
    Bytes((1, 1), b".X", Some(Refusal::DraftLength)),
    // size and byte are wrong
    Bytes((0, 2), b".X", Some(Refusal::DraftSize)),
    Bytes((1, 2049), b".X", Some(Refusal::DraftSize)),
];

static CELLS: [Lift; 6] = [
    Lift::Raised,
    Lift::Sunk,
    Lift::Sunk,
    Lift::Sunk,
    Lift::Sunk,
    Lift::Raised,
];

static LOOKS: [Look; 12] = [
    Look(0, 0, Some(Lift::Raised)),
    Look(0, 1, Some(Lift::Sunk)),
    Look(0, 2, Some(Lift::Sunk)),
    Look(1, 0, Some(Lift::Sunk)),
    Look(1, 1, Some(Lift::Sunk)),
    Look(1, 2, Some(Lift::Raised)),
    Look(0, 3, None),
    Look(1, 3, None),
    Look(2, 0, None),
    Look(2, 3, None),
    Look(MOST, 0, None),
    Look(0, MOST, None),
];

fn verify_sheet<C: Cell + Default>(
    rt: &(impl Abort + AllocGlobal),
    at: usize,
    sheet: &Sheet,
) -> Result<(), Fail> {
    let heap = rt.alloc();
    let Sheet((rows, cols), count, refusal) = sheet;
    let cells = vec![in heap; C::default(); *count]?;
    let bytes = vec![in heap; b'.'; count.saturating_mul(C::BYTES)]?;
    let over_cells = CellSheet::over(*rows, *cols, cells.as_slice()).map(|mut s| s.look(0, 0));
    let over_bytes = ByteSheet::<C>::over(*rows, *cols, bytes.as_slice()).map(|mut s| s.look(0, 0));
    assert!(rt; over_cells.err() == *refusal, "case {at}");
    assert!(rt; over_bytes.err() == *refusal, "case {at}");
    Ok(())
}

fn verify_look<D: Draft<Cell = Lift>>(rt: &impl Abort, at: usize, sheet: &mut D, look: &Look) {
    let Look(row, col, lift) = look;
    let cell = sheet.look(*row, *col);
    assert!(rt;
        (sheet.rows(), sheet.cols(), cell) == (2, 3, *lift),
        "case {at}"
    );
}

#[test]
fn sheets_are_made_up_to_their_limits(rt: HostRuntime) -> Result<(), Fail> {
    for (i, sheet) in SHEETS.iter().enumerate() {
        verify_sheet::<Lift>(&rt, i, sheet)?;
        verify_sheet::<Thread>(&rt, i, sheet)?;
    }
    Ok(())
}

#[test]
fn byte_sheets_are_made_of_whole_cells_that_read(rt: HostRuntime) {
    for (i, Bytes((rows, cols), bytes, refusal)) in BYTES.iter().enumerate() {
        let made = ByteSheet::<Lift>::over(*rows, *cols, bytes).map(|mut s| s.look(0, 0));
        assert!(rt; made.err() == *refusal, "case {i}");
    }
    let cut = ByteSheet::<Thread>::over(1, 2, b"12345");
    assert!(rt; cut.err() == Some(Refusal::DraftLength));
}

#[test]
fn sheets_show_their_cells_inside_and_nothing_outside(rt: HostRuntime) -> Result<(), Fail> {
    for (i, look) in LOOKS.iter().enumerate() {
        verify_look(&rt, i, &mut CellSheet::over(2, 3, &CELLS)?, look);
        verify_look(&rt, i, &mut ByteSheet::over(2, 3, b"#....#")?, look);
    }
    Ok(())
}
