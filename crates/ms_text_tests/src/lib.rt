//! Texts that are cut into tokens, read, refused, written and read back: tests of the readers and the writer together.
#![tactic(auto)]

#[cfg(test)]
mod bodies;
#[cfg(test)]
mod cases;
#[cfg(test)]
mod entities;
#[cfg(test)]
mod grammars;
#[cfg(test)]
mod instructions;
#[cfg(test)]
mod layouts;
#[cfg(test)]
mod lengths;
#[cfg(test)]
mod lexemes;
#[cfg(test)]
mod other_layouts;
#[cfg(test)]
mod parts;
#[cfg(test)]
mod site_cases;
#[cfg(test)]
mod sites;
#[cfg(test)]
mod tests;
