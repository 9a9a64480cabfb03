//! The inserted code that hands masks and origins over at calls and returns, in the slots: for `ms_rules`. `lists.rt` has the same
//! as single lists, which the pass doesn't call.
#![tactic(auto)]

mod arrival;
mod handing;
mod lists;
mod places;
mod taking;
mod words;

pub use arrival::{law_arguments_arrive, law_result_arrives};
pub use handing::{hand_arguments, hand_result};
pub use lists::{give_result, pass_arguments, take_parameters, take_result};
pub use taking::{fetch_parameter, fetch_result};
