//! The answer to the words and files, before anything is written.
ghost use Rattle.std.specs.Prelude.{◌≡◌, ◌≢◌, ◌≤◌, ◌<◌, ℕ, List, [], ◌∷◌, map, length, string_bytes, Some, IfOk};
ghost use Rattle.ns_base.specs.Answers.{limit_of};
ghost use Rattle.ns_base.specs.declared.answers.Counted.TheVariants.{Files};
ghost use Rattle.ns_base.specs.declared.answers.Exit.TheVariants as exits;
ghost use Rattle.component_list.specs.Listed.{IsReadList};
ghost use Rattle.nosleep.specs.Answer.{IsAnswer, one_receiver};
ghost use Rattle.nosleep.specs.Asked.{form_by};
ghost use Rattle.nosleep.specs.Events.{ended_by};
ghost use Rattle.nosleep.specs.Files.{AreSmall};
ghost use Rattle.nosleep.specs.Outcome.{FormHasOutcome, judged_files};
ghost use Rattle.nosleep.specs.Reading.{KeepsShelf};
ghost use Rattle.nosleep.specs.Words.{Check, Receiver, Verify, dex_names, files_of, form_of, kinds_by, kinds_of};

use crate::certifying::certify;
use crate::checking::check_bytes;
use crate::events::push_last;
use crate::files::{Taken, names_of, take_files};
use crate::finding::{Found, find_by_list, find_listed};
use crate::judging::{Judged, judge, with_none};
use crate::refusing::{Answer, found_text, over};
use crate::words::{Asked, Options, ordered_by};
use app_model::Kind;
use component_list::{Listed, ListedRow};
use ns_base::{Counted, Event, Exit, Shelf, limit};
use report_text::{cannot_read, usage_text};
use std::alloc::{AllocError, Global};

/// What is written and told, and with which options.
#[derive(Drop)]
pub struct Outcome {
    pub options: Options,
    pub answer: Answer,
    pub events: Vec<Event>,
}

/// Reads the files that the words name, and judges them.
pub fn find_answer<F: Shelf>(
    alloc: Global,
    words: &[String],
    shelf: &mut F,
) -> Result<Outcome, AllocError>
    ensures answer { IfOk result (λ o. IsAnswer (map string_bytes words.now) (F.content shelf.old)
        (F.faults shelf.old) (F.faults shelf.new) o.answer.text.items o.answer.exit o.events.items) }
    ensures kinds { IfOk result (λ o. kinds_by o.options.json o.options.count ≡ kinds_of (map string_bytes words.now)) }
    ensures judged { IfOk result (λ o. o.answer.exit ≢ exits.Memory) }
    ensures keeps { KeepsShelf F.content F.faults shelf.old shelf.new }
{
    let mut events = Vec::new(alloc);
    let Some(order) = ordered_by(words) else {
        return Ok(Outcome {
            options: Options::NONE,
            answer: Answer {
                exit: Exit::Usage,
                text: found_text(usage_text(alloc))?,
            },
            events,
        });
    };
    let judged = answer_form(alloc, order.form, shelf, &mut events)?;
    push_last(&mut events, &judged)?;
    Ok(Outcome {
        options: order.options,
        answer: judged.answer,
        events,
    })
}

// Reads the files of a form, each an event, and judges them.
fn answer_form<F: Shelf>(
    alloc: Global,
    asked: Asked<'_>,
    shelf: &mut F,
    events: &mut Vec<Event>,
) -> Result<Judged, AllocError>
    requires some { 0 < length (dex_names (form_by asked)) }
    requires none { events.old.items ≡ [] }
    ensures answer { (words : List (List ℕ)) → form_of words ≡ Some (form_by asked.entry) → IfOk result (λ j. IsAnswer words (F.content shelf.old)
        (F.faults shelf.old) (F.faults shelf.new) j.answer.text.items j.answer.exit (ended_by events.new.items j.found.items j.answer.exit)) }
    ensures judged { IfOk result (λ j. j.answer.exit ≢ exits.Memory) }
    ensures keeps { KeepsShelf F.content F.faults shelf.old shelf.new }
{
    if dex_count(asked) as u64 > limit(Counted::Files) {
        return Ok(with_none(alloc, over(alloc, Counted::Files)?));
    }
    let names = names_of(alloc, asked)?;
    match take_files(alloc, shelf, &names, events)? {
        Taken::Fault(i) => {
            let text = cannot_read(alloc, names[i].name)?;
            Ok(with_none(
                alloc,
                Answer {
                    exit: Exit::ReadFault,
                    text,
                },
            ))
        }
        Taken::TooLong(i) => Ok(with_none(alloc, over(alloc, names[i].limit)?)),
        Taken::Whole(files) => answer_files(alloc, asked, &files),
    }
}

fn dex_count(asked: Asked<'_>) -> usize
    ensures { result ≡ length (dex_names (form_by asked.entry)) }
{
    match asked {
        Asked::Receiver { .. } => 1,
        Asked::Verify { files, .. } | Asked::Check { files, .. } => files.len(),
    }
}

/// The answer to the bytes of a form's files.
fn answer_files(alloc: Global, asked: Asked<'_>, files: &[Vec<u8>]) -> Result<Judged, AllocError>
    requires few { length (dex_names (form_by asked)) ≤ 16 }
    requires some { 0 < length (dex_names (form_by asked)) }
    requires each { length files.now ≡ length (files_of (form_by asked)) }
    requires short { AreSmall (judged_files (form_by asked) files.now) }
    ensures { IfOk result (λ j. FormHasOutcome (form_by asked.entry) (map (λ bytes. bytes.items) files.now) j.answer.text.items j.answer.exit j.found.items) }
{
    match asked {
        Asked::Receiver { class, .. } => answer_receiver(alloc, class, files),
        Asked::Verify { .. } => match files.split_first() {
            Some((list, dex)) => answer_verify(alloc, list, dex),
            None => Err(AllocError),
        },
        Asked::Check { .. } => match files.split_first() {
            Some((cert, files)) => match files.split_first() {
                Some((list, dex)) => answer_check(alloc, cert, list, dex),
                None => Err(AllocError),
            },
            None => Err(AllocError),
        },
    }
}

// The answer to a DEX file under a list of the one receiver of this class.
fn answer_receiver(alloc: Global, class: &str, files: &[Vec<u8>]) -> Result<Judged, AllocError>
    requires few { length files.now ≤ 16 }
    requires short { AreSmall files.now }
    ensures { (dex : List ℕ) → IfOk result (λ j. FormHasOutcome (Receiver dex class.now) (map (λ bytes. bytes.items) files.now) j.answer.text.items j.answer.exit j.found.items) }
{
    let listed = one_receiver(alloc, class)?;
    match find_listed(alloc, &listed, files)? {
        Found::Subject(subject) => judge(alloc, &subject),
        Found::Refused(answer) => Ok(with_none(alloc, answer)),
    }
}

// The answer to the bytes of a list and of DEX files.
fn answer_verify(alloc: Global, list: &[u8], files: &[Vec<u8>]) -> Result<Judged, AllocError>
    requires list { length list.now ≤ 33554432 }
    requires few { length files.now ≤ 16 }
    requires some { 0 < length files.now }
    requires short { AreSmall files.now }
    ensures { (one : List ℕ) (dex : List (List ℕ)) → IfOk result (λ j. FormHasOutcome (Verify one dex) (list.now ∷ map (λ bytes. bytes.items) files.now) j.answer.text.items j.answer.exit j.found.items) }
{
    match find_by_list(alloc, list, files)? {
        Found::Subject(subject) => certify(alloc, &subject, list, files),
        Found::Refused(answer) => Ok(with_none(alloc, answer)),
    }
}

// The answer to the bytes of a certificate, of a list and of DEX files. What they come to is refused before the
// certificate's text.
fn answer_check(
    alloc: Global,
    cert: &[u8],
    list: &[u8],
    files: &[Vec<u8>],
) -> Result<Judged, AllocError>
    requires list { length list.now ≤ 33554432 }
    requires few { length files.now ≤ 16 }
    requires short { AreSmall files.now }
    ensures { (one two : List ℕ) (dex : List (List ℕ)) → IfOk result (λ j. FormHasOutcome (Check one two dex) (cert.now ∷ list.now ∷ map (λ bytes. bytes.items) files.now) j.answer.text.items j.answer.exit j.found.items) }
{
    match find_by_list(alloc, list, files)? {
        Found::Subject(subject) => {
            let answer = check_bytes(alloc, &subject, cert, list, files)?;
            Ok(with_none(alloc, answer))
        }
        Found::Refused(answer) => Ok(with_none(alloc, answer)),
    }
}

/// The list of the one receiver of a class.
fn one_receiver(alloc: Global, class: &str) -> Result<Listed, AllocError>
    ensures is { IfOk result (λ listed. listed ≡ one_receiver class.now) }
    ensures list { IfOk result IsReadList }
{
    let mut rows = Vec::with_capacity(alloc, 1)?;
    rows.push(ListedRow {
        kind: Kind::Receiver,
        class: String::from_str(alloc, class)?,
        exits: 1,
    })?;
    Ok(Listed { rows })
}
