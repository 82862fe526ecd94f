//! Looks over the drafts of a record file of lifts by its tiles: lookover < FILE
#![tactic(auto)]

use book_report::book_text;
use cells::Lift;
use plain::Plain;
use reports::LONGEST;
use std::io::Read;

// One byte more than an input may have, so that a longer one is seen to be too long.
const MOST: u64 = LONGEST as u64 + 1;

// Reading and printing stand in each program: a shared function for them could promise nothing.
fn main(rt: HostRuntime) -> anyhow::Result<()> {
    let heap = rt.alloc();
    let mut input = Vec::new(heap);
    rt.stdin().take(MOST).read_to_end(&mut input)?;
    let text = book_text::<Lift, Plain>(heap, &Plain, input.as_slice())?;
    rt.print(text)?;
    Ok(())
}
