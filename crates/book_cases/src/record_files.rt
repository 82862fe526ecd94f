//! Record files of both kinds from one table.
use cells::{Cell, Lift, Thread};
use std::alloc::AllocError;

/// The records of a file, and what is printed of it, whichever kind they are written in.
pub(crate) struct Report(pub(crate) &'static [Record], pub(crate) &'static str);

/// A record: its mark, rows and columns, signs `#` and `.` for cells, and how often the signs stand.
#[derive(Clone, Copy)]
pub(crate) struct Record(
    pub(crate) &'static [u8],
    pub(crate) u16,
    pub(crate) u16,
    pub(crate) &'static [u8],
    pub(crate) usize,
);

pub(crate) const DR: &[u8] = b"DR";

pub(crate) const TL: &[u8] = b"TL";

/// A kind with two cells for `.` and `#`; the cell for `.` is before the cell for `#`.
pub(crate) trait Written: Cell + Default {
    /// The bytes of the cell for `.`.
    const DOT: &'static [u8];

    /// The bytes of the cell for `#`.
    const HASH: &'static [u8];
}

impl Written for Lift {
    const DOT: &'static [u8] = b".";

    const HASH: &'static [u8] = b"#";
}

// The two threads have the same code.
impl Written for Thread {
    const DOT: &'static [u8] = b"\x05\x00\x01";

    const HASH: &'static [u8] = b"\x45\x00\x01";
}

fn push_cells<C: Written>(file: &mut Vec<u8>, cells: &[u8]) -> Result<(), AllocError> {
    for sign in cells {
        file.extend_from_slice(if *sign == b'#' { C::HASH } else { C::DOT })?;
    }
    Ok(())
}

/// Adds a record to a file.
pub(crate) fn push_record<C: Written>(
    file: &mut Vec<u8>,
    record: &Record,
) -> Result<(), AllocError> {
    let Record(mark, rows, cols, cells, times) = record;
    file.extend_from_slice(mark)?;
    file.extend_from_slice(&rows.to_le_bytes())?;
    file.extend_from_slice(&cols.to_le_bytes())?;
    for _ in 0..*times {
        push_cells::<C>(file, cells)?;
    }
    Ok(())
}

/// Adds records to a file.
pub(crate) fn push_records<C: Written>(
    file: &mut Vec<u8>,
    records: &[Record],
) -> Result<(), AllocError> {
    for record in records {
        push_record::<C>(file, record)?;
    }
    Ok(())
}
