//! The events that end a run.
ghost use Rattle.std.specs.Prelude.{◌≡◌, ◌++◌, map, IfOk};
ghost use Rattle.nosleep.specs.Events.{ended_by, held_of};

use crate::judging::Judged;
use flow_model::Violation;
use ns_base::{Event, number};
use std::alloc::AllocError;

fn held(violation: Violation) -> Event
    ensures { result ≡ held_of violation }
{
    Event::Held {
        component: violation.component,
        callback: violation.callback,
        lock: violation.lock,
        status: violation.status,
    }
}

fn push_helds(events: &mut Vec<Event>, found: &[Violation]) -> Result<(), AllocError>
    ensures { IfOk result (λ _. events.new.items ≡ events.old.items ++ map held_of found.now) }
{
    for violation in found {
        events.push(held(*violation))?;
    }
    Ok(())
}

/// Adds the events of the violations and of the exit to those of reading.
pub fn push_last(events: &mut Vec<Event>, judged: &Judged) -> Result<(), AllocError>
    ensures { IfOk result (λ _. events.new.items ≡ ended_by events.old.items judged.now.found.items judged.now.answer.exit) }
{
    push_helds(events, &judged.found)?;
    events.push(Event::Ended {
        exit: number(judged.answer.exit),
    })?;
    Ok(())
}
