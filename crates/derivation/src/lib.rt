//! Reports for the violations of lock fields, cut out of logs of their facts.
//!
//! - `marking` marks the lines and views that a violation needs, from the last ones down.
//! - `leaving` finds what makes a violation.
//! - `making` makes the bodies of the marked ends, `seeing` the marked views, each with new numbers, and `cutting` the report.
//! - `reporting` has the reports of all violations of a lock field, `gathering` those of all of them in order.
#![tactic(auto)]

mod cutting;
mod gathering;
mod leaving;
mod making;
mod marking;
mod reporting;
mod seeing;

pub use cutting::{Exit, report_of};
pub use gathering::{derive_more, order_reports};
pub use leaving::exit_of;
pub use reporting::{derive, derive_from};
