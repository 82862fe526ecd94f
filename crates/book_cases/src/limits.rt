//! Full books, full stores, many places and long files.
use crate::record_files::{DR, Record, TL, Written, push_record, push_records};
use book_report::book_text;
use cells::{Lift, Thread};
use plain::Plain;
use std::fmt;
use std::process::Abort;
use std::test::Fail;

/// A file that begins with so many tiles of 1 row, each with a column less than the one before it and
/// the last with 1 column; the records after them, and what is printed of these.
struct Filled(u16, &'static [Record], &'static str);

/// A draft of `#` with rows and columns, and from how many of its rows places are printed: of the tile
/// `#`, and of the tile of 2 rows and 1 column `##`.
struct Places((u16, u16), u16, u16);

/// The front of a file, how often the byte `#` follows, and what is printed of the file.
struct Long(&'static [u8], usize, &'static str);

static FILLED: [Filled; 6] = [
    // 32 tiles, then another and one that is held
    Filled(
        32,
        &[
            Record(TL, 2, 1, b"##", 1),
            Record(TL, 1, 1, b".", 1),
            Record(DR, 1, 1, b".", 1),
        ],
        "refused 4\nrefused 4\n0 0 0\ndraft 1 1 stopped 1\n",
    ),
    // 31 tiles, then two others
    Filled(
        31,
        &[
            Record(TL, 2, 1, b"##", 1),
            Record(TL, 2, 1, b"..", 1),
            Record(DR, 2, 1, b"##", 1),
        ],
        "tile 2 1 at 31\nrefused 4\n31 0 0\ndraft 2 1 stopped 1\n",
    ),
    // 435 and 3,072 cells; the 33rd tile has no room in the store
    Filled(
        29,
        &[
            Record(TL, 32, 32, b".", 1024),
            Record(TL, 32, 32, b"#", 1024),
            Record(TL, 32, 32, b"#.", 512),
            Record(TL, 32, 32, b".#", 512),
        ],
        "tile 32 32 at 29\ntile 32 32 at 30\ntile 32 32 at 30\nrefused 4\n",
    ),
    // 406 and 3,072 cells; the 32nd tile has no room in the store, and another has
    Filled(
        28,
        &[
            Record(TL, 32, 32, b".", 1024),
            Record(TL, 32, 32, b"#", 1024),
            Record(TL, 32, 32, b"#.", 512),
            Record(TL, 32, 32, b".#", 512),
            Record(TL, 1, 1, b"#", 1),
            Record(TL, 32, 32, b".#", 512),
        ],
        "tile 32 32 at 28\ntile 32 32 at 29\ntile 32 32 at 29\nrefused 7\ntile 1 1 at 1\nrefused 4\n",
    ),
    // 4,096 cells, then a cell more, and a tile that is held
    Filled(
        0,
        &[
            Record(TL, 32, 32, b"#", 1024),
            Record(TL, 32, 32, b".", 1024),
            Record(TL, 32, 32, b"#.", 512),
            Record(TL, 32, 32, b".#", 512),
            Record(TL, 1, 1, b"#", 1),
            Record(TL, 32, 32, b"#", 1024),
            Record(DR, 32, 32, b"#.", 512),
        ],
        "tile 32 32 at 0\ntile 32 32 at 0\ntile 32 32 at 1\ntile 32 32 at 1\nrefused 7\nrefused 7\n2 0 0\ndraft 32 32 stopped 1\n",
    ),
    // 4,095 cells, then 2 cells, a tile that is held, 1 cell, and the tile that is held
    Filled(
        0,
        &[
            Record(TL, 32, 32, b"#", 1024),
            Record(TL, 32, 32, b".", 1024),
            Record(TL, 32, 32, b"#.", 512),
            Record(TL, 31, 32, b"#", 992),
            Record(TL, 1, 30, b"#", 30),
            Record(TL, 1, 1, b"#", 1),
            Record(TL, 1, 2, b"##", 1),
            Record(TL, 1, 1, b"#", 1),
            Record(TL, 1, 1, b".", 1),
            Record(TL, 1, 1, b"#", 1),
        ],
        "tile 32 32 at 0\ntile 32 32 at 0\ntile 32 32 at 1\ntile 31 32 at 0\ntile 1 30 at 0\ntile 1 1 at 0\nrefused 7\nrefused 3\ntile 1 1 at 0\nrefused 7\n",
    ),
];

static PLACES: [Places; 7] = [
    // 63 places and 62, 64 and 63, 65 and 64, 66 and 65
    Places((63, 1), 63, 62),
    Places((64, 1), 64, 63),
    Places((65, 1), 64, 64),
    Places((66, 1), 64, 64),
    // 64 places and 56, 72 and 64, 192 and 128
    Places((8, 8), 8, 7),
    Places((9, 8), 8, 8),
    Places((3, 64), 1, 1),
];

static LONG_LIFTS: [Long; 5] = [
    // 65,535 bytes, and one more
    Long(b"", 65535, "fault 10 at 0\n"),
    Long(b"", 65536, "too long\n"),
    Long(
        b"TL\x01\x00\x01\x00.DR\xb5\x00\x6a\x01",
        65522,
        "tile 1 1 at 0\ndraft 181 362 passed\n",
    ),
    Long(
        b"TL\x01\x00\x01\x00.DR\xb5\x00\x6a\x01",
        65523,
        "too long\n",
    ),
    // 2,048 rows
    Long(b"DR\x00\x08\x01\x00", 2048, "draft 2048 1 passed\n"),
];

static LONG_THREADS: [Long; 3] = [
    // 65,535 bytes, and one more
    Long(
        b"TL\x01\x00\x01\x00\x05\x00\x01DR\x78\x00\xb6\x00",
        65520,
        "tile 1 1 at 0\ndraft 120 182 passed\n",
    ),
    Long(
        b"TL\x01\x00\x01\x00\x05\x00\x01DR\x78\x00\xb6\x00",
        65521,
        "too long\n",
    ),
    // 2,048 columns
    Long(b"DR\x01\x00\x00\x08", 6144, "draft 1 2048 passed\n"),
];

// Adds tiles of 1 row, from so many columns down to 1, and the line of each.
fn push_rows<C: Written>(file: &mut Vec<u8>, text: &mut String, tiles: u16) -> Result<(), Fail> {
    for cols in (1..=tiles).rev() {
        push_record::<C>(file, &Record(TL, 1, cols, b".", cols as usize))?;
        writeln!(text, "tile 1 {cols} at 0")?;
    }
    Ok(())
}

fn verify_filled<C: Written>(
    rt: &(impl Abort + AllocGlobal),
    at: usize,
    case: &Filled,
) -> Result<(), Fail> {
    let Filled(tiles, records, lines) = case;
    let heap = rt.alloc();
    let mut file = Vec::new(heap);
    let mut text = String::new(heap);
    push_rows::<C>(&mut file, &mut text, *tiles)?;
    push_records::<C>(&mut file, *records)?;
    text.push_str(*lines)?;
    let got = book_text::<C, Plain>(heap, &Plain, file.as_slice())?;
    assert_eq!(rt; got.as_str(), text.as_str(), "case {at}");
    Ok(())
}

// Adds the lines of places at every position of a row.
fn push_row_places(text: &mut String, tile: u8, row: u16, cols: u16) -> Result<(), fmt::Error> {
    for col in 0..cols {
        writeln!(text, "{tile} {row} {col}")?;
    }
    Ok(())
}

// Adds the lines of places at every position of so many rows.
fn push_places(text: &mut String, tile: u8, rows: u16, cols: u16) -> Result<(), fmt::Error> {
    for row in 0..rows {
        push_row_places(text, tile, row, cols)?;
    }
    Ok(())
}

fn verify_places<C: Written>(
    rt: &(impl Abort + AllocGlobal),
    at: usize,
    case: &Places,
) -> Result<(), Fail> {
    let Places((rows, cols), first, second) = case;
    let heap = rt.alloc();
    let records = [
        Record(TL, 1, 1, b"#", 1),
        Record(TL, 2, 1, b"##", 1),
        Record(DR, *rows, *cols, b"#", *rows as usize * *cols as usize),
    ];
    let mut file = Vec::new(heap);
    push_records::<C>(&mut file, &records)?;
    let mut text = String::from_str(heap, "tile 1 1 at 0\ntile 2 1 at 1\n")?;
    push_places(&mut text, 0, *first, *cols)?;
    push_places(&mut text, 1, *second, *cols)?;
    writeln!(text, "draft {rows} {cols} stopped 2")?;
    let got = book_text::<C, Plain>(heap, &Plain, file.as_slice())?;
    assert_eq!(rt; got.as_str(), text.as_str(), "case {at}");
    Ok(())
}

fn verify_long<C: Written>(rt: &(impl Abort + AllocGlobal), files: &[Long]) -> Result<(), Fail> {
    let heap = rt.alloc();
    for (i, Long(front, count, text)) in files.iter().enumerate() {
        let mut file = front.to_vec(heap)?;
        file.extend_from_slice(vec![in heap; b'#'; *count]?.as_slice())?;
        let got = book_text::<C, Plain>(heap, &Plain, file.as_slice())?;
        assert_eq!(rt; got.as_str(), *text, "case {i}");
    }
    Ok(())
}

#[test]
fn books_and_stores_are_filled_up_to_their_limits(rt: HostRuntime) -> Result<(), Fail> {
    for (i, case) in FILLED.iter().enumerate() {
        verify_filled::<Lift>(&rt, i, case)?;
        verify_filled::<Thread>(&rt, i, case)?;
    }
    Ok(())
}

#[test]
fn at_most_64_places_of_each_tile_are_printed(rt: HostRuntime) -> Result<(), Fail> {
    for (i, case) in PLACES.iter().enumerate() {
        verify_places::<Lift>(&rt, i, case)?;
        verify_places::<Thread>(&rt, i, case)?;
    }
    Ok(())
}

#[test]
fn files_are_read_up_to_65535_bytes(rt: HostRuntime) -> Result<(), Fail> {
    verify_long::<Lift>(&rt, &LONG_LIFTS)?;
    verify_long::<Thread>(&rt, &LONG_THREADS)
}
