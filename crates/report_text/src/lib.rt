//! The texts that the program writes.
//!
//! - `texts` has the lines of the plain answers, and shows names.
//! - `heads` has the heads of the reports: `heads_text`; `reports` has them with their paths: `reports_text`.
//! - `dex_faults`, `code_faults`, `link_faults` and `list_faults` have the refusals of files, whose numbers `numbers`
//!   writes.
//! - `limits` has the refusal of a count, `refusals` that of an application out of scope.
//! - `verdicts` has the answers to a certificate.
#![tactic(auto)]

mod code_faults;
mod dex_faults;
mod heads;
mod limits;
mod link_faults;
mod list_faults;
mod numbers;
mod refusals;
mod reports;
mod texts;
mod verdicts;

pub use code_faults::bad_code;
pub use dex_faults::bad_dex;
pub use heads::heads_text;
pub use limits::over_limit;
pub use link_faults::bad_link;
pub use list_faults::bad_list;
pub use refusals::refusal_text;
pub use reports::reports_text;
pub use texts::{accept_text, cannot_read, usage_text};
pub use verdicts::{bad_certificate, checked_text};

#[cfg(test)]
mod tests;
