//! What judge answers, and the stop counts that it leaves.
use book::Book;
use cells::Lift;
use engine::TileView;
use plain::Plain;
use readings::read_cells;
use sheets::ByteSheet;
use std::process::Abort;
use std::test::Fail;

/// Rows, columns, and the cells as file bytes.
struct Drawn(usize, usize, &'static [u8]);

/// The tiles of a book in book order, a draft, how many tiles have a place in it, the looks for all of
/// them, and how often each tile has stopped a draft once this one was judged.
// Tiles and counts apart: they are entered and compared as lists.
struct Judged(&'static [Drawn], Drawn, usize, u64, &'static [u16]);

static JUDGED: [Judged; 6] = [
    // no tile is held
    Judged(&[], Drawn(3, 4, b"##...##...##"), 0, 0, &[]),
    // 14 and 12 looks
    Judged(
        &[Drawn(1, 2, b"##"), Drawn(2, 1, b"##")],
        Drawn(3, 4, b"##...##...##"),
        2,
        26,
        &[1, 1],
    ),
    // 14 looks, and none for the tile that is larger than the draft
    Judged(
        &[Drawn(1, 2, b"##"), Drawn(1, 5, b"#####")],
        Drawn(3, 4, b"##...##...##"),
        1,
        14,
        &[1, 0],
    ),
    // 2 looks each; the last tile is found
    Judged(
        &[Drawn(1, 1, b"."), Drawn(1, 1, b"#")],
        Drawn(1, 2, b"##"),
        1,
        4,
        &[0, 1],
    ),
    // 6 looks each; the tile between is found
    Judged(
        &[Drawn(1, 2, b"#."), Drawn(1, 2, b"##"), Drawn(1, 3, b"##.")],
        Drawn(1, 4, b"####"),
        1,
        18,
        &[0, 1, 0],
    ),
    // 4 looks; the draft passes
    Judged(
        &[Drawn(2, 2, b"#..#")],
        Drawn(3, 3, b"........."),
        0,
        4,
        &[0],
    ),
];

// Enters tiles, each of which takes the next number.
fn enter_all(
    rt: &(impl Abort + AllocGlobal),
    at: usize,
    book: &mut Book,
    store: &mut [Lift],
    tiles: &[Drawn],
) -> Result<(), Fail> {
    for (n, Drawn(rows, cols, bytes)) in tiles.iter().enumerate() {
        let mut cells = vec![in rt.alloc(); Lift::default(); bytes.len()]?;
        read_cells(bytes.len(), bytes, cells.as_mut_slice())?;
        let tile = TileView {
            rows: *rows,
            cols: *cols,
            cells: cells.as_slice(),
        };
        assert!(rt; book.enter(store, &tile) == Ok(n), "case {at}");
    }
    Ok(())
}

// Checks the stop count of each tile, each raised so many times.
fn verify_stops(rt: &impl Abort, at: usize, book: &Book, stops: &[u16], times: u16) {
    for (n, count) in stops.iter().enumerate() {
        assert!(rt;
            book.stops(n) == Ok(count.saturating_mul(times)),
            "case {at}"
        );
    }
    assert!(rt; book.count() == stops.len(), "case {at}");
}

fn verify_judged(rt: &(impl Abort + AllocGlobal), at: usize, case: &Judged) -> Result<(), Fail> {
    let Judged(tiles, Drawn(rows, cols, bytes), found, looks, stops) = case;
    let heap = rt.alloc();
    let mut store = vec![in heap; Lift::default(); 64]?;
    let mut work = vec![in heap; 7u32; 12288]?;
    let mut book = Book::new();
    enter_all(rt, at, &mut book, store.as_mut_slice(), tiles)?;
    for times in 1..3u16 {
        let mut draft = ByteSheet::<Lift>::over(*rows, *cols, bytes)?;
        let answer = book
            .judge(store.as_slice(), &Plain, &mut draft, work.as_mut_slice())
            .map(|verdict| (verdict.found, verdict.looks));
        assert!(rt; answer == Ok((*found, *looks)), "case {at}");
        verify_stops(rt, at, &book, stops, times);
    }
    Ok(())
}

#[test]
fn judge_counts_tiles_and_looks_and_raises_stop_counts(rt: HostRuntime) -> Result<(), Fail> {
    for (i, case) in JUDGED.iter().enumerate() {
        verify_judged(&rt, i, case)?;
    }
    Ok(())
}
