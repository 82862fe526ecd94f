//! Finds the tiles of a record file in its drafts: lookfor ENGINE KIND < FILE
#![tactic(auto)]

use cells::{Lift, Thread};
use find_report::find_text;
use plain::Plain;
use reports::LONGEST;
use std::alloc::Global;
use std::env;
use std::io::Read;

// What the arguments can name.
const USAGE: &str =
    "usage: lookfor ENGINE KIND, where ENGINE is plain and KIND is lifts or threads";

// One byte more than an input may have, so that a longer one is seen to be too long.
const MOST: u64 = LONGEST as u64 + 1;

/// A kind of cells.
// A value and a match: the arguments are looked at before the input, and two closures would be no plainer.
#[derive(Clone, Copy)]
enum Kind {
    Lifts,
    Threads,
}

/// The kind that the arguments ask for, if they name an engine and a kind.
// One match on both words is shorter than a FromStr, whose error nothing would read.
fn chosen(args: &[String]) -> Option<Kind> {
    let [_, engine, kind] = args else {
        return None;
    };
    match (engine.as_str(), kind.as_str()) {
        ("plain", "lifts") => Some(Kind::Lifts),
        ("plain", "threads") => Some(Kind::Threads),
        _ => None,
    }
}

fn text(heap: Global, kind: Kind, input: &[u8]) -> anyhow::Result<String> {
    match kind {
        Kind::Lifts => find_text::<Lift, Plain>(heap, &Plain, input),
        Kind::Threads => find_text::<Thread, Plain>(heap, &Plain, input),
    }
}

// Reading and printing stand in each program: a shared function for them could promise nothing.
fn main(rt: HostRuntime) -> anyhow::Result<()> {
    let heap = rt.alloc();
    let args: Vec<String> = env::args(&rt)?.collect(heap)?;
    let Some(kind) = chosen(args.as_slice()) else {
        rt.println(USAGE)?;
        return Ok(());
    };
    let mut input = Vec::new(heap);
    rt.stdin().take(MOST).read_to_end(&mut input)?;
    rt.print(text(heap, kind, input.as_slice())?)?;
    Ok(())
}
