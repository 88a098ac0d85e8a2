//! The modelled Android as a machine, and what the flow rules say of each of its runs.
//!
//! The machine stands in `specs/`: `Heaps` has its values and wake locks, `Frames` its states, `Calls` and `Machine` what may
//! come next, and runs; `Choices` tells the number of options, and each one, without their list. `Tagged` is what the theorem asks of a subject, `Relation` what each step keeps, `Soundness` what the theorem
//! says. `Worked` has runs of small applications, and `WorkedCalls` such with lifecycles and calls.
#![tactic(auto)]

mod laws;
mod status;

pub use laws::{
    call_targets, held_statuses, options_law, scope_law, soundness, soundness_inside,
    tagged_soundness, worked_calls, worked_runs,
};
pub use status::{LockState, slot_status};

#[cfg(test)]
mod tests;
