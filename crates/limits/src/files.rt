//! The length of a record file.
use crate::attempt::{Attempt, Outcome, tell_all};
use anyhow::anyhow;
use cells::Lift;
use find_report::find_report;
use lines::Line;
use plain::Plain;
use std::alloc::Global;
use std::fmt;

/// How many bytes a record file has.
struct File(usize);

static FILES: [File; 2] = [File(65535), File(65536)];

impl fmt::Display for File {
    fn fmt<W: fmt::Write>(&self, f: &mut fmt::Formatter<W>) -> fmt::Result {
        let File(bytes) = self;
        write!(f, "read a record file of {bytes} bytes")
    }
}

impl Attempt for File {
    fn outcome(&self, heap: Global) -> anyhow::Result<Outcome> {
        let File(bytes) = self;
        // a draft of 81 rows and 809 columns, which takes 65,535 bytes
        let mut file = b"DR\x51\x00\x29\x03".to_vec(heap)?;
        file.resize(*bytes, b'#')?;
        let lines = find_report::<Lift, Plain>(heap, &Plain, file.as_slice())?;
        match lines.as_slice() {
            [Line::Draft { .. }] => Ok(Outcome::Accepted),
            [Line::TooLong] => Ok(Outcome::TooLong),
            _ => Err(anyhow!("the file has other lines")),
        }
    }
}

/// Tries record files.
pub(crate) fn tell(rt: &HostRuntime) -> anyhow::Result<()> {
    tell_all(rt, &FILES)
}
