//! What the calls of an application reach, and to which lock fields that stores.
//!
//! - `reaching` has the methods that calls reach; `gathering` joins what is known of these, as bits, and
//!   `assigning` the lock fields to which they store.
//! - `net` links methods with what they call; `spread` takes bits along links, `agenda` in a good order.
#![tactic(auto)]

mod agenda;
mod assigning;
mod gathering;
mod links;
mod net;
mod reaching;
mod spread;

pub use assigning::assigns;
pub use gathering::gathers;
pub use reaching::reach;

#[cfg(test)]
mod tests;
