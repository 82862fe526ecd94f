//! Tables of cases: record files and what lookfor prints of them, the limits of sheets and of finds,
//! and the kinds of cells. Each expectation was worked out from docs/ and not by the crates.
#![tactic(auto)]

#[cfg(test)]
mod faults;
#[cfg(test)]
mod file_tiles;
#[cfg(test)]
mod files;
#[cfg(test)]
mod find_limits;
#[cfg(test)]
mod kinds;
#[cfg(test)]
mod sheet_limits;
