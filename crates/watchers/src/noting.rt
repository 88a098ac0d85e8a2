//! Writing a line and keeping its event, with the memory for both taken before.
ghost use Rattle.std.specs.Prelude.{◌≡◌, ◌≤◌, [], OnOk, IsErrOf};
ghost use Rattle.ns_base.specs.Outside.{Rose, told_after};
ghost use Rattle.watchers.specs.Writing.{WroteAll, WrotePart};

use crate::writing::write_all;
use ns_base::{Event, Sink, Untold};

/// Writes the line and appends the event.
pub(crate) fn note<K: Sink>(
    sink: &mut K,
    told: &mut Vec<Event>,
    event: &Event,
    line: &[u8],
) -> Result<(), Untold>
    ensures events { told.new.items ≡ told_after told.old.items event.now result }
    ensures later { K.faults sink.old ≤ K.faults sink.new }
    ensures cause { IsErrOf result Untold.Failed → Rose (K.faults sink.old) (K.faults sink.new) }
    ensures wrote { OnOk result (WroteAll (K.taken sink.old) (K.taken sink.new) line.now) }
    ensures part { IsErrOf result Untold.Failed → WrotePart (K.taken sink.old) (K.taken sink.new) line.now }
    ensures memory { IsErrOf result Untold.Memory → sink.new ≡ sink.old }
    ensures quiet { line.now ≡ [] → sink.new ≡ sink.old }
{
    if told.reserve(1).is_err() {
        return Err(Untold::Memory);
    }
    if write_all(sink, line).is_err() {
        return Err(Untold::Failed);
    }
    match told.push(*event) {
        Ok(()) => Ok(()),
        Err(_) => unreachable!(),
    }
}
