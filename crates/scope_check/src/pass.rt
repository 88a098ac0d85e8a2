//! The pass over all methods and instructions that keeps the first broken rule.
ghost use Rattle.std.specs.Prelude.{◌≡◌, ◌<◌, ◌+◌, ◌↔◌, ◌⊎◌, ℕ, length, option_map, true, false, Some};
ghost use Rattle.std.specs.Int.{bit_at};
ghost use Rattle.ns_base.specs.declared.rows.LockNo.{LockNo};
ghost use Rattle.app_model.specs.Words.{code_len};
ghost use Rattle.class_graph.specs.Belongs.{IsClassGraph};
ghost use Rattle.flow_model.specs.Scope as scope;
ghost use Rattle.scope_check.specs.Passing.{IsFirst, IsPass, has_stored};
ghost use Rattle.scope_facts.specs.Fields.{is_marked};
ghost use Rattle.scope_check.specs.Tests.{may_not_touch};

use crate::found::{Found, keep};
use crate::survey::Survey;
use act_model::{Act, Row};
use class_graph::ClassGraph;
use flow_model::stores_new;
use ns_base::{LockNo, MethodNo};
use scope_facts::{bit_of, has_lock};

/// The first broken rule so far, and the lock fields to which new locks were stored so far.
#[derive(Clone, Copy)]
pub(crate) struct Pass {
    pub kept: Option<Found>,
    pub stored: u64,
}

// The lock field to which an act stores a new lock.
fn new_store<R: Row>(act: &Act, row: &R) -> Option<LockNo>
    ensures { (l : ℕ) → (scope.stores_new l (Some act.now) (R.tags row.now) ≡ true) ↔ (option_map (λ (k : LockNo). k.0) result ≡ Some l) }
{
    match *act {
        Act::WriteSlot { slot, .. } if stores_new(slot, act, row) => Some(slot),
        _ => None,
    }
}

fn has_stored(stored: u64, fresh: Option<LockNo>) -> bool
    ensures { result ≡ has_stored stored (option_map (λ (k : LockNo). k.0) fresh) }
{
    match fresh {
        Some(lock) => has_lock(stored, lock),
        None => false,
    }
}

fn with_stored(stored: u64, fresh: Option<LockNo>) -> u64
    ensures { (l : ℕ) → l < 64 → (bit_at result l ≡ 1) ↔ ((bit_at stored l ≡ 1) ⊎ (option_map (λ (k : LockNo). k.0) fresh ≡ Some l)) }
{
    match fresh {
        Some(lock) => stored | bit_of(lock),
        None => stored,
    }
}

// An instruction that is reached.
fn look_at(survey: &Survey, method: MethodNo, index: u32, pass: Pass) -> Pass
    requires method { method.0 < length survey.now.case.app.methods }
    requires index { index < code_len survey.now.case.app method.0 }
    requires reached { is_marked survey.now.reached method.0 ≡ true }
    ensures { (heads : ℕ) → IsPass survey.now heads method.0 index pass → IsPass survey.now heads method.0 (index + 1) result }
{
    survey.told();
    let act = survey.act(method, index);
    let row = survey.row(method, index);
    let (pc, _) = survey.ins(method, index);
    let tests = survey.tests(method, index, &act, &row);
    let first = keep(pass.kept, &tests, method, pc);
    let fresh = new_store(&act, &row);
    let again = has_stored(pass.stored, fresh);
    let second_tests = [false, false, false, false, false, false, again];
    let kept = keep(first, &second_tests, method, pc);
    let stored = with_stored(pass.stored, fresh);
    Pass { kept, stored }
}

// One that is not, of a method that may not touch a lock.
fn look_past(survey: &Survey, method: MethodNo, index: u32, pass: Pass) -> Pass
    requires method { method.0 < length survey.now.case.app.methods }
    requires index { index < code_len survey.now.case.app method.0 }
    requires reached { is_marked survey.now.reached method.0 ≡ false }
    requires touches { may_not_touch survey.now.case.app method.0 ≡ true }
    ensures { (heads : ℕ) → IsPass survey.now heads method.0 index pass → IsPass survey.now heads method.0 (index + 1) result }
{
    survey.told();
    let (pc, _) = survey.ins(method, index);
    let touches = survey.is_lock_ins(method, index);
    let tests = [
        false, false, false, false, false, false, false, false, touches,
    ];
    let kept = keep(pass.kept, &tests, method, pc);
    Pass {
        kept,
        stored: pass.stored,
    }
}

// The instructions of a method.
fn look_in(survey: &Survey, method: MethodNo, pass: Pass) -> Pass
    requires method { method.0 < length survey.now.case.app.methods }
    ensures { (heads : ℕ) → IsPass survey.now heads method.0 0 pass → IsPass survey.now heads (method.0 + 1) 0 result }
{
    survey.told();
    if survey.reaches(method) {
        look_at_all(survey, method, pass)
    } else if survey.touches_unreached(method) {
        look_past_all(survey, method, pass)
    } else {
        pass
    }
}

fn look_at_all(survey: &Survey, method: MethodNo, start: Pass) -> Pass
    requires method { method.0 < length survey.now.case.app.methods }
    requires reached { is_marked survey.now.reached method.0 ≡ true }
    ensures { (heads : ℕ) → IsPass survey.now heads method.0 0 start → IsPass survey.now heads (method.0 + 1) 0 result }
{
    survey.told();
    let mut pass = start;
    for index in 0..survey.code_len(method) {
        pass = look_at(survey, method, index, pass);
    }
    pass
}

fn look_past_all(survey: &Survey, method: MethodNo, start: Pass) -> Pass
    requires method { method.0 < length survey.now.case.app.methods }
    requires reached { is_marked survey.now.reached method.0 ≡ false }
    requires touches { may_not_touch survey.now.case.app method.0 ≡ true }
    ensures { (heads : ℕ) → IsPass survey.now heads method.0 0 start → IsPass survey.now heads (method.0 + 1) 0 result }
{
    survey.told();
    let mut pass = start;
    for index in 0..survey.code_len(method) {
        pass = look_past(survey, method, index, pass);
    }
    pass
}

// A method as a whole, and its instructions.
fn look_over(survey: &Survey, classes: &ClassGraph, method: MethodNo, pass: Pass) -> Pass
    requires method { method.0 < length survey.now.case.app.methods }
    requires classes { IsClassGraph survey.now.case.app classes.now }
    ensures { IsPass survey.now method.0 method.0 0 pass → IsPass survey.now (method.0 + 1) (method.0 + 1) 0 result }
{
    survey.told();
    let tests = survey.head_tests(classes, method);
    let kept = keep(pass.kept, &tests, method, 0);
    let entered = Pass {
        kept,
        stored: pass.stored,
    };
    look_in(survey, method, entered)
}

/// The first rule that is broken, at the first place where it is.
pub(crate) fn first_break(survey: &Survey, classes: &ClassGraph) -> Option<Found>
    requires { IsClassGraph survey.now.case.app classes.now }
    ensures { IsFirst survey.now.case result }
{
    survey.told();
    let mut pass = Pass {
        kept: None,
        stored: 0,
    };
    for method in 0..survey.method_count() {
        pass = look_over(survey, classes, MethodNo(method), pass);
    }
    pass.kept
}
