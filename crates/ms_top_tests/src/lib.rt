//! What `msan` writes and returns for words and files: options, refusals, texts, threads, ways, faults of files and sinks.
#![tactic(auto)]

#[cfg(test)]
mod blind_places;
#[cfg(test)]
mod calls;
#[cfg(test)]
mod corpus;
#[cfg(test)]
mod end_calls;
#[cfg(test)]
mod explained;
#[cfg(test)]
mod faults;
#[cfg(test)]
mod forms;
#[cfg(test)]
mod fused;
#[cfg(test)]
mod limits;
#[cfg(test)]
mod listings;
#[cfg(test)]
mod located;
#[cfg(test)]
mod meetings;
#[cfg(test)]
mod once;
#[cfg(test)]
mod options;
#[cfg(test)]
mod passes;
#[cfg(test)]
mod questions;
#[cfg(test)]
mod races;
#[cfg(test)]
mod refusals;
#[cfg(test)]
mod root_calls;
#[cfg(test)]
mod runs;
#[cfg(test)]
mod schedules;
#[cfg(test)]
mod site_lines;
#[cfg(test)]
mod texts;
#[cfg(test)]
mod thread_calls;
#[cfg(test)]
mod threads;
#[cfg(test)]
mod trails;
#[cfg(test)]
mod tried;
#[cfg(test)]
mod validity;
