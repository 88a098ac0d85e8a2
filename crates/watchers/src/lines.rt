//! The lines that are written of events.
ghost use Rattle.std.specs.Prelude.{◌≡◌, ◌++◌, codes, decimal, length, filter, string_bytes, IfOk};
ghost use Rattle.serde_json.specs.Data.{number, unsigned, string, object, member, no_members};
ghost use Rattle.serde_json.specs.View.{view};
ghost use Rattle.watchers.specs.Lines as line;

use ns_base::Event;
use serde_json::{Value, json};
use std::alloc::{AllocError, Global};

/// The event as one line of JSON.
pub(crate) fn json_line(alloc: Global, event: &Event) -> Result<String, AllocError>
    ensures { IfOk result (λ s. string_bytes s ≡ line.json_line event.now) }
{
    let mut line = json_text(alloc, event)?;
    line.push('\n')?;
    Ok(line)
}

fn json_text(alloc: Global, event: &Event) -> Result<String, AllocError>
    ensures { IfOk result (λ s. string_bytes s ≡ line.json_text event.now) }
{
    match *event {
        Event::Read { file, bytes } => read_text(alloc, file, bytes),
        Event::Held {
            component,
            callback,
            lock,
            status,
        } => held_text(alloc, component, callback, lock, status),
        Event::Ended { exit } => ended_text(alloc, exit),
    }
}

fn read_value(alloc: Global, file: u32, bytes: u64) -> Result<Value, AllocError>
    ensures { IfOk result (λ v. view v ≡ object
        (member (codes "bytes") (number (unsigned bytes))
        (member (codes "event") (string (codes "read"))
        (member (codes "file") (number (unsigned file)) no_members)))) }
{
    json!(in alloc; {"bytes": bytes, "event": "read", "file": file})
}

fn read_text(alloc: Global, file: u32, bytes: u64) -> Result<String, AllocError>
    ensures { IfOk result (λ s. string_bytes s
        ≡ codes "{\"bytes\":" ++ decimal bytes ++ codes ",\"event\":\"read\",\"file\":" ++ decimal file ++ codes "}") }
{
    let value = read_value(alloc, file, bytes)?;
    value.to_string(alloc)
}

fn held_value(
    alloc: Global,
    component: u32,
    callback: u32,
    lock: u32,
    status: u8,
) -> Result<Value, AllocError>
    ensures { IfOk result (λ v. view v ≡ object
        (member (codes "callback") (number (unsigned callback))
        (member (codes "component") (number (unsigned component))
        (member (codes "event") (string (codes "held"))
        (member (codes "lock") (number (unsigned lock))
        (member (codes "status") (number (unsigned status)) no_members)))))) }
{
    json!(in alloc; {"callback": callback, "component": component, "event": "held", "lock": lock, "status": status})
}

fn held_text(
    alloc: Global,
    component: u32,
    callback: u32,
    lock: u32,
    status: u8,
) -> Result<String, AllocError>
    ensures { IfOk result (λ s. string_bytes s
        ≡ codes "{\"callback\":" ++ decimal callback ++ codes ",\"component\":" ++ decimal component
        ++ codes ",\"event\":\"held\",\"lock\":" ++ decimal lock ++ codes ",\"status\":" ++ decimal status ++ codes "}") }
{
    let value = held_value(alloc, component, callback, lock, status)?;
    value.to_string(alloc)
}

fn ended_value(alloc: Global, exit: u8) -> Result<Value, AllocError>
    ensures { IfOk result (λ v. view v ≡ object
        (member (codes "event") (string (codes "ended"))
        (member (codes "exit") (number (unsigned exit)) no_members))) }
{
    json!(in alloc; {"event": "ended", "exit": exit})
}

fn ended_text(alloc: Global, exit: u8) -> Result<String, AllocError>
    ensures { IfOk result (λ s. string_bytes s
        ≡ codes "{\"event\":\"ended\",\"exit\":" ++ decimal exit ++ codes "}") }
{
    let value = ended_value(alloc, exit)?;
    value.to_string(alloc)
}

/// The line of counts at the end of a run, and nothing at an earlier event.
pub(crate) fn count_line(alloc: Global, told: &[Event], event: &Event) -> Result<String, AllocError>
    ensures { IfOk result (λ s. string_bytes s ≡ line.count_line told.now event.now) }
{
    match *event {
        Event::Read { .. } => Ok(String::new(alloc)),
        Event::Held { .. } => Ok(String::new(alloc)),
        Event::Ended { exit } => end_line(alloc, reads_in(told), helds_in(told), exit),
    }
}

fn end_line(alloc: Global, reads: usize, helds: usize, exit: u8) -> Result<String, AllocError>
    ensures { IfOk result (λ s. string_bytes s
        ≡ codes "reads " ++ decimal reads ++ codes " helds " ++ decimal helds ++ codes " exit " ++ decimal exit ++ codes "\n") }
{
    format!(in alloc; "reads {reads} helds {helds} exit {exit}\n")
}

fn reads_in(told: &[Event]) -> usize
    ensures { result ≡ length (filter line.is_read told.now) }
{
    told.iter().filter(|event| is_read(*event)).count()
}

fn helds_in(told: &[Event]) -> usize
    ensures { result ≡ length (filter line.is_held told.now) }
{
    told.iter().filter(|event| is_held(*event)).count()
}

fn is_read(event: &Event) -> bool
    ensures { result ≡ line.is_read event.now }
{
    match event {
        Event::Read { .. } => true,
        Event::Held { .. } => false,
        Event::Ended { .. } => false,
    }
}

fn is_held(event: &Event) -> bool
    ensures { result ≡ line.is_held event.now }
{
    match event {
        Event::Read { .. } => false,
        Event::Held { .. } => true,
        Event::Ended { .. } => false,
    }
}
