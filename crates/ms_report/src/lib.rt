//! What is printed: the reports of a run, the way to one of them, how the run ended and its summary, which schedules were tried,
//! and why a module or a command is refused. `ms_top` puts these texts together. Every line ends with a newline.
#![tactic(auto)]

mod calls;
mod endings;
mod faults;
mod laws;
mod lines;
mod names;
mod places;
mod refusals;
mod reports;
mod schedules;
mod site_lines;
mod sites;
mod summaries;
mod trails;
mod words;

pub use endings::{closing, closing_calling, closing_with};
pub use laws::{law_functions_are_named, law_lines_are_added};
pub use places::places_text;
pub use refusals::{Refusal, refusal_line, refusal_line_with, threads_line};
pub use reports::{report_text, report_text_calling, report_text_with};
pub use schedules::schedules_text;
pub use site_lines::{NoLines, SiteLines};
pub use summaries::summary_text;
pub use trails::trail_text_calling;
pub use words::{WordsFault, words_line};
