//! For which lock fields each component answers.
ghost use Rattle.std.specs.Prelude.{◌≡◌, ◌<◌, IfOk, length, true, Some};
ghost use Rattle.app_model.specs.Words.{code_len};
ghost use Rattle.flow_model.specs.Passes.{is_field};
ghost use Rattle.flow_model.specs.Policy as policy;
ghost use Rattle.scope_check.specs.Answering.{AcquiresAt, AcquiresIn, AcquiresBelow, AreAcquired, AreAnswers, AreRowAnswers, MethodHas, WordHas};
ghost use Rattle.scope_facts.specs.Bits.{Tells, HoldsBelow};

use crate::survey::Survey;
use act_model::{Act, Row, receiver_tag};
use app_model::{ComponentRow, LockUse, Tag};
use call_reach::gathers;
use ns_base::{MethodNo, OutOfMemory};
use scope_facts::bit_of;
use std::alloc::{AllocError, Global};

// The lock field whose lock an act acquires.
fn acquired<R: Row>(act: &Act, row: &R) -> u64
    ensures { Tells result (λ l. policy.acquires l (Some act.now) (R.tags row.now) ≡ true) }
{
    match *act {
        Act::Call {
            usage: LockUse::Acquire,
            args,
            ..
        } => field_bit(receiver_tag(row, &args)),
        _ => 0,
    }
}

fn field_bit(tag: Tag) -> u64
    ensures { Tells result (λ l. is_field l tag ≡ true) }
{
    match tag {
        Tag::Field(lock) => bit_of(lock),
        _ => 0,
    }
}

fn acquired_at(survey: &Survey, method: MethodNo, index: u32) -> u64
    requires method { method.0 < length survey.now.case.app.methods }
    requires index { index < code_len survey.now.case.app method.0 }
    ensures { Tells result (AcquiresAt survey.now.case method.0 index) }
{
    let act = survey.act(method, index);
    let row = survey.row(method, index);
    acquired(&act, &row)
}

// The same of all instructions of a method that is reached.
fn acquired_in(survey: &Survey, method: MethodNo) -> u64
    requires { method.0 < length survey.now.case.app.methods }
    ensures { Tells result (HoldsBelow (code_len survey.now.case.app method.0) (AcquiresAt survey.now.case method.0)) }
{
    let mut mask = 0;
    for index in 0..survey.code_len(method) {
        mask |= acquired_at(survey, method, index);
    }
    mask
}

fn acquired_word(survey: &Survey, method: MethodNo) -> u64
    requires { method.0 < length survey.now.case.app.methods }
    ensures { Tells result (AcquiresIn survey.now method.0) }
{
    if survey.reaches(method) {
        acquired_in(survey, method)
    } else {
        0
    }
}

fn acquired_words(alloc: Global, survey: &Survey) -> Result<Vec<u64>, AllocError>
    ensures { IfOk result (λ words. AreAcquired survey.now words.items) }
{
    let mut words = Vec::with_capacity(alloc, survey.method_count() as usize)?;
    for method in 0..survey.method_count() {
        words.push(acquired_word(survey, MethodNo(method)))?;
    }
    Ok(words)
}

/// For each method the lock fields whose locks its reach acquires.
fn words_below(alloc: Global, survey: &Survey) -> Result<Vec<u64>, AllocError>
    ensures { IfOk result (λ below. AcquiresBelow survey.now below.items) }
{
    survey.case.told();
    let own = acquired_words(alloc, survey)?;
    match gathers(alloc, &survey.case.app, &survey.case.graph, own) {
        Ok(below) => Ok(below),
        Err(OutOfMemory) => Err(AllocError),
    }
}

fn word_at(words: &[u64], method: Option<MethodNo>) -> u64
    ensures { Tells result (WordHas words.now method) }
{
    match method {
        Some(method) => words.get(method.0 as usize).copied().unwrap_or(0),
        None => 0,
    }
}

// The lock fields of all words of a component's methods.
fn answers_of(below: &[u64], methods: &[Option<MethodNo>]) -> u64
    ensures { Tells result (HoldsBelow (length methods.now) (MethodHas below.now methods.now)) }
{
    let mut mask = 0;
    for k in 0..methods.len() {
        mask |= word_at(below, methods[k]);
    }
    mask
}

fn answer_rows(alloc: Global, below: &[u64], rows: &[ComponentRow]) -> Result<Vec<u64>, AllocError>
    ensures { IfOk result (λ answers. AreRowAnswers below.now rows.now answers.items) }
{
    let mut answers = Vec::with_capacity(alloc, rows.len())?;
    for c in 0..rows.len() {
        let row = &rows[c];
        answers.push(answers_of(below, &row.methods))?;
    }
    Ok(answers)
}

/// For each component the lock fields for which it answers.
pub(crate) fn answers(alloc: Global, survey: &Survey) -> Result<Vec<u64>, AllocError>
    ensures { IfOk result (λ answers. AreAnswers survey.now answers.items) }
{
    let below = words_below(alloc, survey)?;
    answer_rows(alloc, &below, &survey.case.list.rows)
}
