//! The least closed table of tags of an application: fast by a list of places, exact by sweeps over all of them.
//!
//! - `building` counts the cells and has the whole.
//! - `known` is what is known before, `state` has the table while it is made, and `agenda` the places worth a look.
//! - `passing` lets a change of a row flow to successors and handlers, `calling` arguments and answers.
//! - `visiting` does all that flows from one instruction, `sweeping` goes over all instructions.
//! - `laws` has what holds of all flows.
#![tactic(auto)]

mod agenda;
mod building;
mod calling;
mod fault;
mod known;
mod laws;
mod passing;
mod state;
mod sweeping;
mod visiting;

pub use building::tags;
pub use fault::TagFault;
pub use laws::flow_law;
