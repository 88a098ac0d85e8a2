//! Reports: a violation of the exit policy with a way to it, which the flow rules allow step by step, and the test of it, which
//! takes no memory.
//!
//! - `report` has what a report is made of: bodies, which are ways through methods; views, which are states of components at
//!   idle moments; and a last step.
//! - `checking` tests a report, and names the first piece that is wrong.
//! - `steps` tests a body, by `places`, instructions by their pcs, and by `spot` and `goal`, where an instruction leads.
//! - `views` tests a view and `exit` the last step, by `task`, where the edges of lifecycles lead; `edges` has those.
//! - `laws` has what a valid report shows.
#![tactic(auto)]

mod checking;
mod edges;
mod exit;
mod goal;
mod laws;
mod places;
mod report;
mod spot;
mod steps;
mod task;
mod views;

pub use checking::check_report;
pub use edges::{Edges, stays};
pub use goal::Goal;
pub use laws::report_law;
pub use report::{BodyPath, By, End, Report, Step, ViewStep};
pub use spot::Spot;
pub use views::{Carrier, is_view, view_at};
