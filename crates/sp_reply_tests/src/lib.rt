//! Tests of the crates of lines, pages and replies, through what they make public.
//!
//! They stand in a crate of their own since a crate with tests is proved twice, and all that it stands on is lowered for
//! them.
#![tactic(auto)]

#[cfg(test)]
mod blocks;
#[cfg(test)]
mod labels;
#[cfg(test)]
mod line_labels;
#[cfg(test)]
mod line_modules;
#[cfg(test)]
mod lines;
#[cfg(test)]
mod pages;
#[cfg(test)]
mod products;
#[cfg(test)]
mod refusals;
#[cfg(test)]
mod restrictions;
