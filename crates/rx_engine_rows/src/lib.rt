//! Tests of strategies, of their configuration, of the caches of lazy DFAs and of the one-pass DFA, below the regex that hides them. Other
//! searches are cases of `tests/`.
#![tactic(auto)]

#[cfg(test)]
mod caches;
#[cfg(test)]
mod config;
#[cfg(test)]
mod onepass_builds;
#[cfg(test)]
mod onepass_searches;
#[cfg(test)]
mod rows;
#[cfg(test)]
mod strategy;
