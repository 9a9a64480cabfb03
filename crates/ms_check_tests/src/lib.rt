//! What the check returns on modules, and their layouts, sites, roots and copies; and calls that take a checked module and that the
//! program makes in another form. Each module is the text that stands for it; each answer was worked out by hand.
#![tactic(auto)]

#[cfg(test)]
mod answers;
#[cfg(test)]
mod copies;
#[cfg(test)]
mod edges;
#[cfg(test)]
mod externals;
#[cfg(test)]
mod inserted;
#[cfg(test)]
mod layouts;
#[cfg(test)]
mod marks;
#[cfg(test)]
mod names;
#[cfg(test)]
mod order;
#[cfg(test)]
mod pauses;
#[cfg(test)]
mod pieces;
#[cfg(test)]
mod sites;
#[cfg(test)]
mod sizes;
#[cfg(test)]
mod tests;
#[cfg(test)]
mod types;
#[cfg(test)]
mod uses;
