//! Tests of the iterators of regexes, and of the caches that their searches share.
#![tactic(auto)]

#[cfg(test)]
mod iterators;
#[cfg(test)]
mod pool;
#[cfg(test)]
mod rows;
