//! Record files with a fault, and the order in which the reader checks.
use crate::files::{K, printed};
use cells::Lift;
use std::process::Abort;
use std::test::Fail;

/// A fault: what is printed where it is in the first record, and where it is in the record after K;
/// and files of which each has it.
struct Faulty {
    first: &'static str,
    after_k: &'static str,
    files: &'static [&'static [u8]],
}

static FAULTS: [Faulty; 5] = [
    Faulty {
        first: "fault 1 at 0\n",
        after_k: "0 0 0\n0 1 1\n0 2 2\ntile 0 places 3 looks 14\ndraft 3 4 tiles 1\nfault 1 at 26\n",
        files: &[
            // no rows, no columns
            b"TL\x00\x00\x01\x00#",
            b"TL\x01\x00\x00\x00#",
            // 33 rows, 33 columns, 256 rows
            b"TL\x21\x00\x01\x00#################################",
            b"TL\x01\x00\x21\x00#################################",
            b"TL\x00\x01\x01\x00#",
            // the cells are short too
            b"TL\x21\x00\x01\x00",
            // a byte is no cell too
            b"TL\x00\x00\x01\x00X",
        ],
    },
    Faulty {
        first: "fault 9 at 0\n",
        after_k: "0 0 0\n0 1 1\n0 2 2\ntile 0 places 3 looks 14\ndraft 3 4 tiles 1\nfault 9 at 26\n",
        files: &[
            // no rows, no columns
            b"DR\x00\x00\x01\x00#",
            b"DR\x01\x00\x00\x00#",
            // 2,049 rows, 2,049 columns, 65,535 of both; the cells are short too
            b"DR\x01\x08\x01\x00#",
            b"DR\x01\x00\x01\x08#",
            b"DR\xff\xff\xff\xff#",
            b"DR\x00\x00\x01\x00",
            // a byte is no cell too
            b"DR\x00\x00\x01\x00X",
        ],
    },
    Faulty {
        first: "fault 10 at 0\n",
        after_k: "0 0 0\n0 1 1\n0 2 2\ntile 0 places 3 looks 14\ndraft 3 4 tiles 1\nfault 10 at 26\n",
        files: &[
            // the header is missing too
            b"DX",
            b"XR",
            b"RD",
            b"dr",
            // a record that is whole but for its mark
            b"DL\x01\x00\x01\x00#",
            // the size is bad too
            b"XX\x00\x00\x01\x00",
        ],
    },
    Faulty {
        first: "fault 11 at 0\n",
        after_k: "0 0 0\n0 1 1\n0 2 2\ntile 0 places 3 looks 14\ndraft 3 4 tiles 1\nfault 11 at 26\n",
        files: &[
            // half a mark
            b"D",
            b"X",
            // the header is cut
            b"DR",
            b"DR\x01",
            b"DR\x01\x00",
            b"DR\x01\x00\x01",
            b"TL",
            b"TL\x01",
            b"TL\x01\x00",
            b"TL\x01\x00\x01",
            // the size is bad too
            b"DR\x00\x00\x00",
            b"TL\x00\x00\x00",
            // the cells are cut
            b"DR\x01\x00\x01\x00",
            b"TL\x01\x00\x01\x00",
            b"DR\x01\x00\x02\x00#",
            b"TL\x01\x00\x02\x00#",
            // 2,048 by 2,048, 256 by 1 and 32 by 32 are sizes
            b"DR\x00\x08\x00\x08#",
            b"DR\x00\x01\x01\x00#",
            b"TL\x20\x00\x20\x00#",
            // a byte is no cell too
            b"DR\x01\x00\x03\x00#X",
            b"TL\x01\x00\x03\x00XX",
        ],
    },
    Faulty {
        first: "fault 12 at 0\n",
        after_k: "0 0 0\n0 1 1\n0 2 2\ntile 0 places 3 looks 14\ndraft 3 4 tiles 1\nfault 12 at 26\n",
        files: &[
            b"DR\x01\x00\x02\x00X#",
            b"DR\x02\x00\x01\x00#X",
            b"TL\x01\x00\x02\x00X#",
            // what follows is not read
            b"TL\x01\x00\x02\x00#\x00DR\x01\x00\x01\x00#",
        ],
    },
];

fn verify_fault(rt: &(impl Abort + AllocGlobal), at: usize, fault: &Faulty) -> Result<(), Fail> {
    for (j, file) in fault.files.iter().enumerate() {
        let first = printed::<Lift>(rt.alloc(), b"", file)?;
        assert_eq!(rt; first.as_str(), fault.first, "case {at}, file {j}");
        let after_k = printed::<Lift>(rt.alloc(), K, file)?;
        assert_eq!(rt; after_k.as_str(), fault.after_k, "case {at}, file {j}");
    }
    Ok(())
}

#[test]
fn faults_tell_their_number_and_the_byte_of_their_record(rt: HostRuntime) -> Result<(), Fail> {
    for (i, fault) in FAULTS.iter().enumerate() {
        verify_fault(&rt, i, fault)?;
    }
    Ok(())
}
