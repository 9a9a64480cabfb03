//! Laws of the form that the pass gives: the instrumented form of a module is formed and valid, also where nothing is computed of
//! values that are clean in every run; how large it is, and how many checks are left. Each law is a public function with an empty
//! body, and what it promises is the law.
#![tactic(auto)]

pub mod checks;
pub mod elided_modules;
pub mod instrumented;
