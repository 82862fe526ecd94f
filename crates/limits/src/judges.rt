//! Judging drafts by a book.
use crate::attempt::{Attempt, Outcome, tell_all};
use crate::book_with::book_with;
use book::{Book, Verdict};
use cells::Lift;
use grids::Refusal;
use plain::Plain;
use sheets::CellSheet;
use std::alloc::Global;
use std::fmt;

/// The cells of the store of a book of 32 tiles, and the words of the work table.
struct Judge(usize, usize);

/// How many drafts are judged by a book, in each of which its tile is found.
struct StopCount(usize);

static JUDGES: [Judge; 3] = [Judge(528, 12288), Judge(527, 12288), Judge(528, 12287)];

static STOP_COUNTS: [StopCount; 3] = [StopCount(65534), StopCount(65535), StopCount(65536)];

impl fmt::Display for Judge {
    fn fmt<W: fmt::Write>(&self, f: &mut fmt::Formatter<W>) -> fmt::Result {
        let Judge(cells, words) = self;
        write!(
            f,
            "judge a draft by a book of 32 tiles with a store of {cells} cells and a work table of {words} words"
        )
    }
}

impl fmt::Display for StopCount {
    fn fmt<W: fmt::Write>(&self, f: &mut fmt::Formatter<W>) -> fmt::Result {
        let StopCount(drafts) = self;
        write!(f, "stop count after {drafts} judged drafts")
    }
}

// Judges a draft of one cell.
fn judge_one(book: &mut Book, store: &[Lift], work: &mut [u32]) -> Result<Verdict, Refusal> {
    let mut draft = CellSheet::over(1, 1, &[Lift::Sunk])?;
    book.judge(store, &Plain, &mut draft, work)
}

// Judges so many drafts of one cell, and answers the stop count of tile 0.
fn stops_after(
    book: &mut Book,
    store: &[Lift],
    work: &mut [u32],
    drafts: usize,
) -> Result<u16, Refusal> {
    for _ in 0..drafts {
        judge_one(book, store, work)?;
    }
    book.stops(0)
}

impl Attempt for Judge {
    fn outcome(&self, heap: Global) -> anyhow::Result<Outcome> {
        let Judge(cells, words) = self;
        let mut store = vec![in heap; Lift::default(); 528]?;
        let mut book = book_with(heap, store.as_mut_slice(), 32)?;
        store.truncate(*cells);
        let mut work = vec![in heap; 0u32; *words]?;
        Ok(judge_one(&mut book, store.as_slice(), work.as_mut_slice()).into())
    }
}

impl Attempt for StopCount {
    fn outcome(&self, heap: Global) -> anyhow::Result<Outcome> {
        let StopCount(drafts) = self;
        let mut store = [Lift::default()];
        let mut book = book_with(heap, &mut store, 1)?;
        let mut work = vec![in heap; 0u32; 12288]?;
        let stops = stops_after(&mut book, &store, work.as_mut_slice(), *drafts);
        Ok(stops.map_or_else(Outcome::Refused, Outcome::Count))
    }
}

/// Judges drafts.
pub(crate) fn tell(rt: &HostRuntime) -> anyhow::Result<()> {
    tell_all(rt, &JUDGES)?;
    tell_all(rt, &STOP_COUNTS)
}
