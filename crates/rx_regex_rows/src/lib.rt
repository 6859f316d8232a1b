//! Tests of the searches of regexes. Those of their iterators stand in `rx_iterator_rows`.
#![tactic(auto)]

#[cfg(test)]
mod attempts;
#[cfg(test)]
mod dfas;
#[cfg(test)]
mod onepass;
#[cfg(test)]
mod regex;
#[cfg(test)]
mod rows;
#[cfg(test)]
mod sets;
#[cfg(test)]
mod strategies;
