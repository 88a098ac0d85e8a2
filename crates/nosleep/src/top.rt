//! The top call: all that the program does.
ghost use Rattle.std.specs.Prelude.{◌≡◌, ◌≢◌, ◌⊎◌, ℕ, List, Some, true, false, map, slice_get, string_bytes, vec_len};
ghost use Rattle.ns_base.specs.Outside.{Rose};
ghost use Rattle.ns_base.specs.declared.answers.Event.{Event};
ghost use Rattle.watchers.specs.Telling.{is_chosen, seen};
ghost use Rattle.nosleep.specs.Words.{Form, form_of, kinds_of};
ghost use Rattle.nosleep.specs.Answer.{AreJudged, AreTold, IsAnswer, IsEnd, IsExact, IsFailure, IsStarved, IsUntold, Judges};
ghost use Rattle.nosleep.specs.Ending.{HasExit, IsExitBy};
ghost use Rattle.nosleep.specs.Events.{AreWatchersTold};
ghost use Rattle.nosleep.specs.Reading.{KeepsShelf};
ghost use Rattle.app_model.specs.Subject.{SubjectParts};
ghost use Rattle.nosleep.specs.Judged.{IsSafe};

use crate::answer::find_answer;
use crate::telling::{Told, tell_all};
use crate::words::kinds_by;
use crate::writing::write_all;
use ns_base::{Event, Exit, Failed, Shelf, Sink, Watcher};
use std::alloc::{AllocError, Global};

/// All that the program does: reads the words and files, writes the answer, and says how it ends.
/// The words do not hold the program's own name. `docs/command.md` has the answers and their order.
pub fn nosleep<F: Shelf, K: Sink>(
    alloc: Global,
    words: &[String],
    shelf: &mut F,
    out: &mut K,
    watchers: &mut Vec<Box<dyn Watcher>>,
) -> Exit
    // The words and the told bytes come to one exit, text and events, and the call ends on these.
    ensures answer { (exit : Exit) × (text : List ℕ) × (all : List Event)
        × IsAnswer (map string_bytes words.now) (F.content shelf.old) (F.faults shelf.old) (F.faults shelf.new) text exit all
        × IsEnd exit text (kinds_of (map string_bytes words.now)) all result (K.taken out.old) (K.taken out.new) (K.faults out.old) (K.faults out.new)
        (map (λ w. seen (sort w) (events w) ((⟦<dyn Watcher as Watcher>⟧ w.vtable).faults w.value)) watchers.old.items)
        (map (λ w. seen (sort w) (events w) ((⟦<dyn Watcher as Watcher>⟧ w.vtable).faults w.value)) watchers.new.items) }

    // No fault is answered that the outside did not have.
    ensures read { result ≡ Exit.ReadFault → Rose (F.faults shelf.old) (F.faults shelf.new) }
    ensures write { result ≡ Exit.WriteFault → Rose (K.faults out.old) (K.faults out.new) }
    ensures watch { result ≡ Exit.WatcherFault → (i : ℕ) × (old : _) × (new : _)
        × (slice_get watchers.old.items i ≡ Some old) × (slice_get watchers.new.items i ≡ Some new)
        × (is_chosen (kinds_of (map string_bytes words.now)) (sort old) ≡ true) × Rose ((⟦<dyn Watcher as Watcher>⟧ old.vtable).faults old.value) ((⟦<dyn Watcher as Watcher>⟧ new.vtable).faults new.value) }

    // After want of memory nothing was written.
    ensures memory { result ≡ Exit.Memory → out.new ≡ out.old }

    // After accepted files no run of the machine leaves a lock held: by the solver's answer, or by any certificate.
    ensures sound { result ≡ Exit.Accept → (form : Form) (all : List (List ℕ)) → form_of (map string_bytes words.now) ≡ Some form
        → AreTold (F.content shelf.old) form all → (x : SubjectParts) × AreJudged form all x × IsSafe x }

    // Unless the outside failed or memory ran out, told files that come to a subject are answered by its judgement, for each
    // subject that they come to.
    ensures exact { (form : Form) (all : List (List ℕ)) (x : SubjectParts) → form_of (map string_bytes words.now) ≡ Some form
        → AreTold (F.content shelf.old) form all → AreJudged form all x → IsFailure result ⊎ IsExact form all x result (K.taken out.old) (K.taken out.new) }

    // Told files that come to a subject are judged, unless the outside failed or memory ran out.
    ensures complete { (form : Form) (all : List (List ℕ)) (x : SubjectParts) → form_of (map string_bytes words.now) ≡ Some form
        → AreTold (F.content shelf.old) form all → AreJudged form all x
        → ¬ Rose (F.faults shelf.old) (F.faults shelf.new) → ¬ Rose (K.faults out.old) (K.faults out.new)
        → ((i : ℕ) (old new : _) → slice_get watchers.old.items i ≡ Some old → slice_get watchers.new.items i ≡ Some new
        → is_chosen (kinds_of (map string_bytes words.now)) (sort old) ≡ true → ¬ Rose ((⟦<dyn Watcher as Watcher>⟧ old.vtable).faults old.value) ((⟦<dyn Watcher as Watcher>⟧ new.vtable).faults new.value))
        → Judges form result ⊎ IsStarved result }

    // What the shelf tells stays, and so does each watcher that was not chosen.
    ensures shelf { KeepsShelf F.content F.faults shelf.old shelf.new }
    ensures watchers { vec_len watchers.new ≡ vec_len watchers.old }
    ensures others { (i : ℕ) (old new : _) → slice_get watchers.old.items i ≡ Some old → slice_get watchers.new.items i ≡ Some new
        → is_chosen (kinds_of (map string_bytes words.now)) (sort old) ≡ false → new ≡ old }

    // No watcher is touched where the words have no form, the text was not written, or memory ran out before it.
    ensures untold { IsUntold result → watchers.new.items ≡ watchers.old.items }
{
    match find_answer(alloc, words, shelf) {
        Err(AllocError) => Exit::Memory,
        Ok(outcome) => match write_all(out, &outcome.answer.text) {
            Ok(()) => tell(
                watchers,
                kinds_by(outcome.options),
                &outcome.events,
                outcome.answer.exit,
            ),
            Err(Failed) => Exit::WriteFault,
        },
    }
}

// Tells the events to the watchers of these kinds: the exit, or why they were told less.
fn tell(watchers: &mut Vec<Box<dyn Watcher>>, kinds: &[u8], all: &[Event], exit: Exit) -> Exit
    ensures told { AreWatchersTold exit kinds.now all.now
        (map (λ w. seen (sort w) (events w) (faults w)) watchers.old.items)
        (map (λ w. seen (sort w) (events w) (faults w)) watchers.new.items) result }
    ensures len { vec_len watchers.new ≡ vec_len watchers.old }
    ensures others { (i : ℕ) (old new : _) → slice_get watchers.old.items i ≡ Some old → slice_get watchers.new.items i ≡ Some new
        → is_chosen kinds.now (sort old) ≡ false → new ≡ old }
    ensures ends { IsExitBy ((i : ℕ) × (old : _) × (new : _)
        × (slice_get watchers.old.items i ≡ Some old) × (slice_get watchers.new.items i ≡ Some new)
        × (is_chosen kinds.now (sort old) ≡ true) × Rose (faults old) (faults new)) exit result }
{
    let told = tell_all(watchers, kinds, all);
    exit_by(exit, told)
}

// The exit, or why watchers were told less.
fn exit_by(exit: Exit, told: Told) -> Exit
    ensures { HasExit exit told result }
{
    if told.starved > 0 {
        Exit::Partly
    } else if told.failed > 0 {
        Exit::WatcherFault
    } else {
        exit
    }
}
