//! Tries each limit that a caller can meet, at the limit and just past it, and prints a line for each.
#![tactic(auto)]

mod asks;
mod attempt;
mod book_with;
mod enters;
mod files;
mod finds;
mod judges;
mod reads;
mod sheet_sizes;

fn main(rt: HostRuntime) -> anyhow::Result<()> {
    finds::tell(&rt)?;
    sheet_sizes::tell(&rt)?;
    reads::tell(&rt)?;
    enters::tell(&rt)?;
    asks::tell(&rt)?;
    judges::tell(&rt)?;
    files::tell(&rt)
}
