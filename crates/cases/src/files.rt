//! Record files, and what lookfor prints of them.
use cells::{Cell, Lift, Thread};
use find_report::find_text;
use plain::Plain;
use std::alloc::Global;
use std::process::Abort;
use std::test::Fail;

/// A file, and what is printed of it.
struct Report {
    file: &'static [u8],
    text: &'static str,
}

/// The front of a file, how often the byte `#` follows, and what is printed of the file.
struct Long(&'static [u8], usize, &'static str);

/// The tile `##`, and the draft K after it: 26 bytes.
pub(crate) const K: &[u8] = b"TL\x01\x00\x02\x00##DR\x03\x00\x04\x00##...##...##";

static LIFT_REPORTS: [Report; 11] = [
    Report {
        file: b"",
        text: "",
    },
    Report {
        file: K,
        text: "0 0 0\n0 1 1\n0 2 2\ntile 0 places 3 looks 14\ndraft 3 4 tiles 1\n",
    },
    // a tile of 1 by 5, and a tile of 2 by 1, in K
    Report {
        file: b"TL\x01\x00\x05\x00#####TL\x02\x00\x01\x00##DR\x03\x00\x04\x00##...##...##",
        text: "tile 0 places 0 looks 0\n1 0 1\n1 1 2\ntile 1 places 2 looks 12\ndraft 3 4 tiles 2\n",
    },
    // a tile of 4 by 1 in K
    Report {
        file: b"TL\x04\x00\x01\x00####DR\x03\x00\x04\x00##...##...##",
        text: "tile 0 places 0 looks 0\ndraft 3 4 tiles 1\n",
    },
    // places that overlap
    Report {
        file: b"TL\x01\x00\x02\x00##DR\x01\x00\x04\x00####",
        text: "0 0 0\n0 0 1\n0 0 2\ntile 0 places 3 looks 6\ndraft 1 4 tiles 1\n",
    },
    // a tile alone
    Report {
        file: b"TL\x01\x00\x02\x00##",
        text: "",
    },
    // a draft before any tile
    Report {
        file: b"DR\x01\x00\x04\x00####",
        text: "draft 1 4 tiles 0\n",
    },
    // two equal tiles
    Report {
        file: b"TL\x01\x00\x01\x00#TL\x01\x00\x01\x00#DR\x02\x00\x01\x00.#",
        text: "0 1 0\ntile 0 places 1 looks 2\n1 1 0\ntile 1 places 1 looks 2\ndraft 2 1 tiles 2\n",
    },
    // a tile after the draft
    Report {
        file: b"TL\x01\x00\x01\x00#DR\x01\x00\x01\x00#TL\x01\x00\x01\x00.",
        text: "0 0 0\ntile 0 places 1 looks 1\ndraft 1 1 tiles 1\n",
    },
    // a tile between drafts
    Report {
        file: b"DR\x01\x00\x01\x00.TL\x01\x00\x01\x00.DR\x01\x00\x01\x00.DR\x01\x00\x01\x00#",
        text: "draft 1 1 tiles 0\n0 0 0\ntile 0 places 1 looks 1\ndraft 1 1 tiles 1\ntile 0 places 0 looks 1\ndraft 1 1 tiles 1\n",
    },
    // numbers of two digits
    Report {
        file: b"TL\x01\x00\x01\x00#DR\x01\x00\x0c\x00.........##.",
        text: "0 0 9\n0 0 10\ntile 0 places 2 looks 12\ndraft 1 12 tiles 1\n",
    },
];

static THREAD_REPORTS: [Report; 8] = [
    // one colour with two plies
    Report {
        file: b"TL\x01\x00\x01\x00\x05\x00\x01DR\x01\x00\x02\x00\x05\x00\x02\x05\x00\x01",
        text: "0 0 1\ntile 0 places 1 looks 2\ndraft 1 2 tiles 1\n",
    },
    // the colours 1 and 257
    Report {
        file: b"TL\x01\x00\x01\x00\x01\x00\x00DR\x01\x00\x02\x00\x01\x01\x00\x01\x00\x00",
        text: "0 0 1\ntile 0 places 1 looks 2\ndraft 1 2 tiles 1\n",
    },
    // a tile of 2 by 1, with the bytes of marks in its cells
    Report {
        file: b"TL\x02\x00\x01\x00##.DR.DR\x03\x00\x01\x00##.##.DR.",
        text: "0 1 0\ntile 0 places 1 looks 4\ndraft 3 1 tiles 1\n",
    },
    // the cells are cut within a cell
    Report {
        file: b"TL\x01\x00\x01\x00\x05\x00",
        text: "fault 11 at 0\n",
    },
    Report {
        file: b"DR\x01\x00\x02\x00\x05\x00\x02\x05\x00",
        text: "fault 11 at 0\n",
    },
    Report {
        file: b"DR\x01\x00\x01\x00\x05\x00\x01DR\x01\x00\x02\x00\x05\x00\x02\x05",
        text: "draft 1 1 tiles 0\nfault 11 at 9\n",
    },
    // a file of lifts
    Report {
        file: K,
        text: "fault 10 at 12\n",
    },
    // no rows, and any bytes
    Report {
        file: b"DR\x00\x00\x01\x00XXX",
        text: "fault 9 at 0\n",
    },
];

static LONG_FILES: [Long; 11] = [
    // 65,535 bytes, and one more
    Long(b"", 65535, "fault 10 at 0\n"),
    Long(b"", 65536, "too long\n"),
    Long(b"DR\x51\x00\x29\x03", 65529, "draft 81 809 tiles 0\n"),
    Long(b"DR\x51\x00\x29\x03", 65530, "too long\n"),
    // 2,048 rows or columns of a draft, and one more
    Long(b"DR\x00\x08\x01\x00", 2048, "draft 2048 1 tiles 0\n"),
    Long(b"DR\x01\x08\x01\x00", 2049, "fault 9 at 0\n"),
    Long(b"DR\x01\x00\x00\x08", 2048, "draft 1 2048 tiles 0\n"),
    Long(b"DR\x01\x00\x01\x08", 2049, "fault 9 at 0\n"),
    // 32 rows and columns of a tile, and a byte more or less
    Long(b"TL\x20\x00\x20\x00", 1024, ""),
    Long(b"TL\x20\x00\x20\x00", 1025, "fault 11 at 1030\n"),
    Long(b"TL\x20\x00\x20\x00", 1023, "fault 11 at 0\n"),
];

/// What is printed of a file that begins with one part and ends with another.
pub(crate) fn printed<C: Cell + Default>(
    heap: Global,
    front: &[u8],
    rest: &[u8],
) -> anyhow::Result<String> {
    let mut file = front.to_vec(heap)?;
    file.extend_from_slice(rest)?;
    find_text::<C, Plain>(heap, &Plain, file.as_slice())
}

fn verify_reports<C: Cell + Default>(
    rt: &(impl Abort + AllocGlobal),
    reports: &[Report],
) -> Result<(), Fail> {
    for (i, report) in reports.iter().enumerate() {
        let text = printed::<C>(rt.alloc(), b"", report.file)?;
        assert_eq!(rt; text.as_str(), report.text, "case {i}");
    }
    Ok(())
}

#[test]
fn files_print_their_lines(rt: HostRuntime) -> Result<(), Fail> {
    verify_reports::<Lift>(&rt, &LIFT_REPORTS)?;
    verify_reports::<Thread>(&rt, &THREAD_REPORTS)
}

#[test]
fn files_and_records_are_read_up_to_their_limits(rt: HostRuntime) -> Result<(), Fail> {
    for (i, Long(front, count, text)) in LONG_FILES.iter().enumerate() {
        let rest = vec![in rt.alloc(); b'#'; *count]?;
        let got = printed::<Lift>(rt.alloc(), front, rest.as_slice())?;
        assert_eq!(rt; got.as_str(), *text, "case {i}");
    }
    Ok(())
}
