//! Tests of scans and runs: the examples of the documents, runs over ends in memory, ends that fail, and scans by several workers. The
//! tables of runs of the whole program, with patterns that cost much, stand in `tests/` at the top of the repository.
#![tactic(auto)]

#[cfg(test)]
mod ends;
#[cfg(test)]
mod examples;
#[cfg(test)]
mod scans;
#[cfg(test)]
mod standard;
#[cfg(test)]
mod words;
