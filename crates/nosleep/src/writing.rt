//! Writing a text until all of it is taken.
ghost use Rattle.std.specs.Prelude.{◌≡◌, ◌≤◌, ◌<◌, [], length, take, OnOk, OnErr, IfOk};
ghost use Rattle.ns_base.specs.Outside.{Rose};
ghost use Rattle.watchers.specs.Writing.{WroteAll, WrotePart};

use ns_base::{Failed, Sink};

/// Writes all of the text. A call that fails, or that takes nothing, ends it.
pub fn write_all<K: Sink>(out: &mut K, text: &[u8]) -> Result<(), Failed>
    ensures ok { OnOk result (WroteAll (K.taken out.old) (K.taken out.new) text.now) }
    ensures part { OnErr result (WrotePart (K.taken out.old) (K.taken out.new) text.now) }
    ensures cause { OnErr result (Rose (K.faults out.old) (K.faults out.new)) }
    ensures later { K.faults out.old ≤ K.faults out.new }
{
    let mut done = 0;
    while done < text.len() {
        let (_, rest) = text.split_at(done);
        match write_some(out, rest) {
            Ok(count) => done += count,
            Err(failed) => return Err(failed),
        }
    }
    Ok(())
}

// One write of something: how many bytes were taken, at least one.
fn write_some<K: Sink>(out: &mut K, piece: &[u8]) -> Result<usize, Failed>
    requires { 0 < length piece.now }
    ensures some { IfOk result (λ n. 0 < n) }
    ensures within { IfOk result (λ n. n ≤ length piece.now) }
    ensures taken { IfOk result (λ n. WroteAll (K.taken out.old) (K.taken out.new) (take n piece.now)) }
    ensures nothing { OnErr result (WroteAll (K.taken out.old) (K.taken out.new) []) }
    ensures cause { OnErr result (Rose (K.faults out.old) (K.faults out.new)) }
    ensures later { K.faults out.old ≤ K.faults out.new }
{
    match out.write(piece) {
        Ok(0) => Err(Failed),
        Ok(count) => Ok(count),
        Err(Failed) => Err(Failed),
    }
}
