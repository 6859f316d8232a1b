//! Tests of classes, named sets, searches, pools and slots, in a crate of their own: a crate with tests is proved twice.
#![tactic(auto)]

#[cfg(test)]
mod byte_classes;
#[cfg(test)]
mod captures;
#[cfg(test)]
mod class;
#[cfg(test)]
mod group_info;
#[cfg(test)]
mod interpolate;
#[cfg(test)]
mod look_matcher;
#[cfg(test)]
mod look_set;
#[cfg(test)]
mod pattern_set;
#[cfg(test)]
mod pool;
#[cfg(test)]
mod searcher;
#[cfg(test)]
mod sets;
#[cfg(test)]
mod slots;
#[cfg(test)]
mod steps;
