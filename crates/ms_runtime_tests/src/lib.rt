//! What programs do under `run` and `check`: instructions, memory, externals, shadow and origins, ends and traps.
#![tactic(auto)]

#[cfg(test)]
mod aside_calls;
#[cfg(test)]
mod block_bytes;
#[cfg(test)]
mod bounds;
#[cfg(test)]
mod bytes;
#[cfg(test)]
mod chains;
#[cfg(test)]
mod checks;
#[cfg(test)]
mod control;
#[cfg(test)]
mod elided;
#[cfg(test)]
mod external_bytes;
#[cfg(test)]
mod externals;
#[cfg(test)]
mod format_checks;
#[cfg(test)]
mod format_texts;
#[cfg(test)]
mod formats;
#[cfg(test)]
mod given;
#[cfg(test)]
mod heap;
#[cfg(test)]
mod hostile;
#[cfg(test)]
mod marked;
#[cfg(test)]
mod memory;
#[cfg(test)]
mod memory_checks;
#[cfg(test)]
mod outside;
#[cfg(test)]
mod read_bytes;
#[cfg(test)]
mod runtime;
#[cfg(test)]
mod runtime_strings;
#[cfg(test)]
mod stream_arguments;
#[cfg(test)]
mod traps;
#[cfg(test)]
mod value_checks;
#[cfg(test)]
mod word_calls;
#[cfg(test)]
mod word_masks;
#[cfg(test)]
mod word_values;
#[cfg(test)]
mod words;
