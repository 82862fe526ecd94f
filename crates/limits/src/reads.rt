//! Reading cells into memory.
use crate::attempt::{Attempt, Outcome, tell_all};
use cells::Lift;
use readings::read_cells;
use std::alloc::Global;
use std::fmt;

/// How many lifts are read, a count of bytes that are all the same, and for how many cells there is
/// memory.
struct Read(usize, usize, u8, usize);

static READS: [Read; 4] = [
    Read(6, 6, b'.', 6),
    Read(6, 6, b'.', 5),
    Read(6, 5, b'.', 6),
    Read(6, 6, b'X', 6),
];

impl fmt::Display for Read {
    fn fmt<W: fmt::Write>(&self, f: &mut fmt::Formatter<W>) -> fmt::Result {
        let Read(count, length, byte, room) = self;
        let shown = *byte as char;
        write!(
            f,
            "read {count} cells from {length} bytes `{shown}` into memory for {room} cells"
        )
    }
}

impl Attempt for Read {
    fn outcome(&self, heap: Global) -> anyhow::Result<Outcome> {
        let Read(count, length, byte, room) = self;
        let bytes = vec![in heap; *byte; *length]?;
        let mut memory = vec![in heap; Lift::default(); *room]?;
        Ok(read_cells(*count, bytes.as_slice(), memory.as_mut_slice()).into())
    }
}

/// Tries to read cells.
pub(crate) fn tell(rt: &HostRuntime) -> anyhow::Result<()> {
    tell_all(rt, &READS)
}
