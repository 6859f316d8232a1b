//! The examples of docs/GUIDE.md and README.md that stand on regexes, as tests: what the documents show is run by the full check. Those of
//! scans stand in `rx_rows`.
#![tactic(auto)]

#[cfg(test)]
mod answers;
#[cfg(test)]
mod builds;
#[cfg(test)]
mod loops;
#[cfg(test)]
mod searches;
#[cfg(test)]
mod values;
