//! What each call of an application can call, found without a walk over all classes for each named method.
//!
//! - `sources` tells what decides what a call can call, `declared` which classes declare a method.
//! - `numbers` goes over the instructions once and numbers the sets that calls share.
//! - `children` has the classes right below each type, `walk` meets types once, and `below` finds with
//!   both the classes that a receiver may have. `found` makes a set of what look-ups find.
//! - `laws` has what holds of every call.
//! - `looking` looks up one set, and `making` makes them all, and counts their entries.
//!
//! What calls reach and assign stands in `call_reach`, and is given on.
#![tactic(auto)]

mod below;
mod building;
mod children;
mod declared;
mod fault;
mod found;
mod laws;
mod looking;
mod making;
mod numbers;
mod sources;
mod walk;

pub use building::targets;
pub use call_reach::{assigns, reach};
pub use fault::TargetFault;
pub use laws::call_law;
