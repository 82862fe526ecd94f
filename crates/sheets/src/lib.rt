//! Bottom drafts: sheets over lent cells, and over lent file bytes.
#![tactic(auto)]

// Two types: what they share, a size and a count, is shorter than a trait for where the cells are.
mod byte_sheet;
mod cell_sheet;

pub use byte_sheet::ByteSheet;
pub use cell_sheet::CellSheet;
