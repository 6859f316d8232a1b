//! Tests of the grammar, of expressions, their literals and prefilters, and of NFAs, each from patterns on.
#![tactic(auto)]

#[cfg(test)]
mod config;
#[cfg(test)]
mod hir;
#[cfg(test)]
mod literals;
#[cfg(test)]
mod nfa;
#[cfg(test)]
mod order;
#[cfg(test)]
mod prefilter;
#[cfg(test)]
mod reader;
#[cfg(test)]
mod refusals;
#[cfg(test)]
mod rows;
#[cfg(test)]
mod syntax;
