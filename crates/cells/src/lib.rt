//! Cells: what a kind of cell owes, and the two kinds.
#![tactic(auto)]

mod cell;
mod lift;
mod thread;

pub use cell::Cell;
pub use lift::Lift;
pub use thread::Thread;
