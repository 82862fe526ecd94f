//! Record files with a fault.
use crate::record_files::{DR, Record, Report, TL, Written, push_records};
use book_report::book_text;
use cells::{Lift, Thread};
use plain::Plain;
use std::process::Abort;
use std::test::Fail;

/// A fault: its number, and files of which each has it.
struct Faulty(u8, &'static [&'static [u8]]);

static NOTHING: Report = Report(&[], "");

// two tiles, one of them twice, and K
static FRONT: Report = Report(
    &[
        Record(TL, 2, 1, b"##", 1),
        Record(TL, 1, 2, b"##", 1),
        Record(TL, 1, 2, b"##", 1),
        Record(DR, 3, 4, b"##...##...##", 1),
    ],
    "tile 2 1 at 0\ntile 1 2 at 0\nrefused 3\n0 0 0\n0 1 1\n0 2 2\n1 0 1\n1 1 2\ndraft 3 4 stopped 2\n",
);

// in files of either kind
static FAULTS: [Faulty; 4] = [
    Faulty(
        1,
        &[
            // no rows, no columns, 33 rows, 33 columns
            b"TL\x00\x00\x01\x00",
            b"TL\x01\x00\x00\x00",
            b"TL\x21\x00\x01\x00",
            b"TL\x01\x00\x21\x00",
            // what follows is not read
            b"TL\x00\x00\x01\x00DR\x01\x00\x01\x00###",
        ],
    ),
    Faulty(
        9,
        &[
            // no rows, no columns, 2,049 rows, 2,049 columns
            b"DR\x00\x00\x01\x00",
            b"DR\x01\x00\x00\x00",
            b"DR\x01\x08\x01\x00",
            b"DR\x01\x00\x01\x08",
        ],
    ),
    Faulty(
        10,
        &[
            b"DX",
            b"XL",
            b"tl",
            // a record that is whole but for its mark
            b"DL\x01\x00\x01\x00###",
        ],
    ),
    Faulty(
        11,
        &[
            // the mark, the header and the cells are cut
            b"T",
            b"TL",
            b"DR\x01\x00\x01",
            b"DR\x01\x00\x01\x00",
            b"TL\x01\x00\x02\x00#",
            // 32 by 32 and 2,048 by 2,048 are sizes
            b"TL\x20\x00\x20\x00###",
            b"DR\x00\x08\x00\x08###",
        ],
    ),
];

// in files of lifts, whose first record has bytes that read as no lift
static NO_LIFTS: Faulty = Faulty(
    12,
    &[
        b"DR\x01\x00\x02\x00X#",
        b"TL\x01\x00\x02\x00#X",
        b"TL\x01\x00\x01\x00\x05\x00\x01",
        // what follows is not read
        b"TL\x02\x00\x01\x00#\x00DR\x01\x00\x01\x00#",
    ],
);

// Checks a fault after some records.
fn verify_after<C: Written>(
    rt: &(impl Abort + AllocGlobal),
    front: &Report,
    fault: &Faulty,
) -> Result<(), Fail> {
    let heap = rt.alloc();
    let Report(records, lines) = front;
    let Faulty(number, files) = fault;
    for (i, rest) in files.iter().enumerate() {
        let mut file = Vec::new(heap);
        push_records::<C>(&mut file, records)?;
        let text = format!(in heap; "{lines}fault {number} at {}\n", file.len())?;
        file.extend_from_slice(rest)?;
        let got = book_text::<C, Plain>(heap, &Plain, file.as_slice())?;
        assert_eq!(rt; got.as_str(), text.as_str(), "fault {number}, file {i}");
    }
    Ok(())
}

// Checks a fault in the first record and after others.
fn verify_fault<C: Written>(rt: &(impl Abort + AllocGlobal), fault: &Faulty) -> Result<(), Fail> {
    verify_after::<C>(rt, &NOTHING, fault)?;
    verify_after::<C>(rt, &FRONT, fault)
}

#[test]
fn faults_end_the_lines(rt: HostRuntime) -> Result<(), Fail> {
    for fault in &FAULTS {
        verify_fault::<Lift>(&rt, fault)?;
        verify_fault::<Thread>(&rt, fault)?;
    }
    verify_fault::<Lift>(&rt, &NO_LIFTS)
}
