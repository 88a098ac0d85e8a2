//! What is limited over a whole file.
ghost use Rattle.std.specs.Prelude.{◌<◌, ◌^◌, ◌≡◌};
ghost use Rattle.dex_file.specs.Content.{member_count};
ghost use Rattle.dex_file.specs.Exact.{IsExact};
ghost use Rattle.dex_file.specs.Reading.{added, no_sums, with_members, with_code};

use crate::fault::FileFault;
use dex_bytes::DexFault;
use dex_code::{ClassMembers, CodeItem};
use ns_base::{Counted, limit};

/// How many members, code units and exception handlers were read so far.
#[derive(Clone, Copy)]
pub struct Sums {
    pub members: u64,
    pub units: u64,
    pub handlers: u64,
}

// So many more of what is counted, where so many came before.
fn add(which: Counted, before: u64, more: u128) -> Result<u64, FileFault>
    requires { more < 2 ^ 127 }
    ensures { IsExact result (added which before more) }
{
    let sum = u128::from(before) + more;
    if sum > u128::from(limit(which)) {
        return Err(FileFault::Dex(DexFault::Limit(which)));
    }
    Ok(sum as u64)
}

fn count_members(members: &ClassMembers) -> u128
    ensures value { result ≡ member_count members.now }
    ensures few { result < 2 ^ 127 }
{
    members.statics.len() as u128
        + members.instances.len() as u128
        + members.directs.len() as u128
        + members.virtuals.len() as u128
}

impl Sums {
    /// Before anything was read.
    pub fn new() -> Sums
        ensures { result ≡ no_sums }
    {
        Sums {
            members: 0,
            units: 0,
            handlers: 0,
        }
    }

    /// With the members of a class.
    #[tactic(auto, unfolding(crate::specs::Reading::with_members))]
    pub fn add_members(self, members: &ClassMembers) -> Result<Sums, FileFault>
        ensures { IsExact result (with_members self members.now) }
    {
        let count = add(Counted::Members, self.members, count_members(members))?;
        Ok(Sums {
            members: count,
            ..self
        })
    }

    /// With a code item: its units first.
    #[tactic(auto, unfolding(crate::specs::Reading::with_code))]
    pub fn add_code(self, item: &CodeItem) -> Result<Sums, FileFault>
        ensures { IsExact result (with_code self item.now) }
    {
        let units = add(Counted::Units, self.units, item.units.len() as u128)?;
        let handlers = add(
            Counted::Handlers,
            self.handlers,
            item.handlers.len() as u128,
        )?;
        Ok(Sums {
            units,
            handlers,
            ..self
        })
    }
}
