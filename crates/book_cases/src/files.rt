//! Record files, and what is printed of them.
use crate::record_files::{DR, Record, Report, TL, Written, push_records};
use book_report::book_text;
use cells::{Lift, Thread};
use plain::Plain;
use std::process::Abort;
use std::test::Fail;

/// A file of threads, and what is printed of it.
struct Threads(&'static [u8], &'static str);

static REPORTS: [Report; 13] = [
    Report(&[], ""),
    // two tiles in K; the second moves the first
    Report(
        &[
            Record(TL, 2, 1, b"##", 1),
            Record(TL, 1, 2, b"##", 1),
            Record(DR, 3, 4, b"##...##...##", 1),
        ],
        "tile 2 1 at 0\ntile 1 2 at 0\n0 0 0\n0 1 1\n0 2 2\n1 0 1\n1 1 2\ndraft 3 4 stopped 2\n",
    ),
    // no tile is held
    Report(&[Record(DR, 1, 1, b"#", 1)], "draft 1 1 passed\n"),
    // the draft is smaller than every tile
    Report(
        &[
            Record(TL, 2, 1, b"##", 1),
            Record(TL, 1, 2, b"##", 1),
            Record(DR, 1, 1, b"#", 1),
        ],
        "tile 2 1 at 0\ntile 1 2 at 0\ndraft 1 1 passed\n",
    ),
    // the tile fits and has no place
    Report(
        &[Record(TL, 1, 2, b"##", 1), Record(DR, 2, 3, b"#.#.#.", 1)],
        "tile 1 2 at 0\ndraft 2 3 passed\n",
    ),
    // one of two tiles has a place
    Report(
        &[
            Record(TL, 1, 2, b"#.", 1),
            Record(TL, 1, 2, b".#", 1),
            Record(DR, 2, 2, b"###.", 1),
        ],
        "tile 1 2 at 0\ntile 1 2 at 0\n1 1 0\ndraft 2 2 stopped 1\n",
    ),
    // the tile is the draft
    Report(
        &[Record(TL, 2, 2, b"#..#", 1), Record(DR, 2, 2, b"#..#", 1)],
        "tile 2 2 at 0\n0 0 0\ndraft 2 2 stopped 1\n",
    ),
    // places that overlap, and numbers of two digits
    Report(
        &[
            Record(TL, 1, 2, b"##", 1),
            Record(DR, 2, 12, b".....................###", 1),
        ],
        "tile 1 2 at 0\n0 1 9\n0 1 10\ndraft 2 12 stopped 1\n",
    ),
    // a tile that is held
    Report(
        &[
            Record(TL, 1, 1, b"#", 1),
            Record(TL, 1, 1, b"#", 1),
            Record(DR, 1, 2, b".#", 1),
        ],
        "tile 1 1 at 0\nrefused 3\n0 0 1\ndraft 1 2 stopped 1\n",
    ),
    // a tile that is held and was moved
    Report(
        &[
            Record(TL, 1, 2, b"##", 1),
            Record(TL, 1, 1, b"#", 1),
            Record(TL, 1, 2, b"..", 1),
            Record(TL, 1, 2, b"##", 1),
            Record(DR, 1, 2, b"##", 1),
        ],
        "tile 1 2 at 0\ntile 1 1 at 0\ntile 1 2 at 1\nrefused 3\n0 0 0\n0 0 1\n2 0 0\ndraft 1 2 stopped 2\n",
    ),
    // a tile that is held, and tiles of its cells in another size
    Report(
        &[
            Record(TL, 2, 2, b"####", 1),
            Record(TL, 1, 4, b"####", 1),
            Record(TL, 4, 1, b"####", 1),
            Record(TL, 2, 2, b"####", 1),
        ],
        "tile 2 2 at 0\ntile 1 4 at 0\ntile 4 1 at 2\nrefused 3\n",
    ),
    // tiles between drafts
    Report(
        &[
            Record(DR, 1, 2, b"##", 1),
            Record(TL, 1, 2, b"##", 1),
            Record(DR, 1, 2, b"##", 1),
            Record(TL, 1, 1, b"#", 1),
            Record(DR, 1, 2, b"##", 1),
        ],
        "draft 1 2 passed\ntile 1 2 at 0\n0 0 0\ndraft 1 2 stopped 1\ntile 1 1 at 0\n0 0 0\n0 0 1\n1 0 0\ndraft 1 2 stopped 2\n",
    ),
    // rows, then columns, then cells
    Report(
        &[
            Record(TL, 2, 1, b"..", 1),
            Record(TL, 1, 3, b"###", 1),
            Record(TL, 1, 2, b"##", 1),
            Record(TL, 1, 2, b"#.", 1),
            Record(TL, 1, 2, b".#", 1),
            Record(TL, 1, 2, b"..", 1),
            Record(TL, 1, 3, b"##.", 1),
            Record(TL, 2, 2, b"....", 1),
            Record(TL, 3, 1, b"...", 1),
            Record(TL, 2, 1, b"##", 1),
            Record(DR, 2, 2, b"####", 1),
        ],
        "tile 2 1 at 0\ntile 1 3 at 0\ntile 1 2 at 0\ntile 1 2 at 0\ntile 1 2 at 0\ntile 1 2 at 0\ntile 1 3 at 4\ntile 2 2 at 7\ntile 3 1 at 8\ntile 2 1 at 7\n3 0 0\n3 1 0\n7 0 0\n7 0 1\ndraft 2 2 stopped 2\n",
    ),
];

static THREADS: [Threads; 6] = [
    // one colour with four plies
    Threads(
        b"TL\x01\x00\x01\x00\x05\x00\x01TL\x01\x00\x01\x00\x05\x00\x02TL\x01\x00\x01\x00\x05\x00\x00TL\x01\x00\x01\x00\x05\x00\x01DR\x01\x00\x02\x00\x05\x00\x03\x05\x00\x02",
        "tile 1 1 at 0\ntile 1 1 at 1\ntile 1 1 at 0\nrefused 3\n2 0 1\ndraft 1 2 stopped 1\n",
    ),
    // colour 4 ply 0, colour 3 ply 200
    Threads(
        b"TL\x01\x00\x01\x00\x04\x00\x00TL\x01\x00\x01\x00\x03\x00\xc8DR\x01\x00\x02\x00\x03\x00\x00\x04\x00\xc8",
        "tile 1 1 at 0\ntile 1 1 at 0\ndraft 1 2 passed\n",
    ),
    // the colours 256, 255, 1 and 257
    Threads(
        b"TL\x01\x00\x01\x00\x00\x01\x00TL\x01\x00\x01\x00\xff\x00\x00TL\x01\x00\x01\x00\x01\x00\x00TL\x01\x00\x01\x00\x01\x01\x00DR\x01\x00\x02\x00\x01\x01\x00\xff\x00\x00",
        "tile 1 1 at 0\ntile 1 1 at 0\ntile 1 1 at 0\ntile 1 1 at 3\n1 0 1\n3 0 0\ndraft 1 2 stopped 2\n",
    ),
    // the colours 69, 5 and 133 have one code
    Threads(
        b"TL\x01\x00\x01\x00\x45\x00\x01DR\x01\x00\x02\x00\x05\x00\x01\x85\x00\x01",
        "tile 1 1 at 0\ndraft 1 2 passed\n",
    ),
    // the cells are cut within a cell
    Threads(
        b"TL\x01\x00\x01\x00\x05\x00\x01DR\x01\x00\x02\x00\x05\x00\x02\x05\x00",
        "tile 1 1 at 0\nfault 11 at 9\n",
    ),
    // a file of lifts
    Threads(
        b"TL\x01\x00\x02\x00##DR\x03\x00\x04\x00##...##...##",
        "tile 1 2 at 0\nfault 10 at 12\n",
    ),
];

fn verify_report<C: Written>(
    rt: &(impl Abort + AllocGlobal),
    at: usize,
    report: &Report,
) -> Result<(), Fail> {
    let Report(records, text) = report;
    let heap = rt.alloc();
    let mut file = Vec::new(heap);
    push_records::<C>(&mut file, records)?;
    let got = book_text::<C, Plain>(heap, &Plain, file.as_slice())?;
    assert_eq!(rt; got.as_str(), *text, "case {at}");
    Ok(())
}

fn verify_threads(rt: &(impl Abort + AllocGlobal)) -> Result<(), Fail> {
    for (i, Threads(file, text)) in THREADS.iter().enumerate() {
        let got = book_text::<Thread, Plain>(rt.alloc(), &Plain, file)?;
        assert_eq!(rt; got.as_str(), *text, "case {i} of threads");
    }
    Ok(())
}

#[test]
fn files_print_their_lines(rt: HostRuntime) -> Result<(), Fail> {
    for (i, report) in REPORTS.iter().enumerate() {
        verify_report::<Lift>(&rt, i, report)?;
        verify_report::<Thread>(&rt, i, report)?;
    }
    verify_threads(&rt)
}
