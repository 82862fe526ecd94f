//! Tables of cases: books and what judge answers, record files and what lookover and lookthreads print
//! of them. Each expectation was worked out from docs/ and not by the crates.
#![tactic(auto)]

#[cfg(test)]
mod faults;
#[cfg(test)]
mod files;
#[cfg(test)]
mod judges;
#[cfg(test)]
mod limits;
#[cfg(test)]
mod record_files;
