//! Words, lists, files and sinks, memory and paths over a graph, against values worked out by hand: tests of the crates at
//! the bottom.
#![tactic(auto)]

#[cfg(test)]
mod allocations;
#[cfg(test)]
mod blocks;
#[cfg(test)]
mod files;
#[cfg(test)]
mod lists;
#[cfg(test)]
mod paths;
#[cfg(test)]
mod planes;
#[cfg(test)]
mod rows;
#[cfg(test)]
mod sinks;
#[cfg(test)]
mod words;
