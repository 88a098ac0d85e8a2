//! Facts are led on from a list of those that are new, callees before what waits for them. It promises only that no fact is
//! wrong or lost, and which ones were led on.
ghost use Rattle.std.specs.Prelude.{◌≡◌, ◌<◌, ℕ, true, false, length, IfOk};
ghost use Rattle.app_model.specs.Facts.{Fact};
ghost use Rattle.app_model.specs.Subject.{slot_count};
ghost use Rattle.solution.specs.Facts.{holds, HasPlaces};
ghost use Rattle.solver.specs.Turns.{AllMasks, AreFacts, HasPlace, IsPlace, Keeps, InsideBy};
ghost use Rattle.solver.specs.Visits.{AreLed, Nears};

use crate::agenda::{Agenda, Look};
use crate::calls::call_all;
use crate::task::{Site, Task};
use crate::visit::lead_new;
use app_model::Subject;
use flow_model::Rows;
use ns_base::{MethodNo, OutOfMemory};
use solution::{Solution, without};
use std::alloc::{AllocError, Global};
use std::marker::Model;

/// The facts of instructions that were led on, which contracts see, and what is to be looked at.
#[derive(Drop)]
pub struct Worklist {
    pub(crate) led: Solution,
    pub(crate) agenda: Agenda,
}

impl Model for Worklist {
    ghost use Rattle.solution.specs.Facts.{Facts};

    ghost Value = { Facts };

    ghost view = { λ w. w.led };
}

impl Worklist {
    /// Nothing was led on.
    pub fn new(alloc: Global, subject: &Subject) -> Result<Worklist, OutOfMemory>
        ensures places { IfOk result (λ worklist. HasPlaces subject.now worklist) }
        ensures empty { IfOk result (λ worklist. (f : Fact) → holds worklist f ≡ false) }
    {
        let led = Solution::new(alloc, subject)?;
        match Agenda::new(alloc, subject.app.method_count()) {
            Ok(agenda) => Ok(Worklist { led, agenda }),
            Err(AllocError) => Err(OutOfMemory),
        }
    }
}

/// How a method ends, to see whether that grew.
#[derive(Clone, Copy)]
struct Ends {
    returned: u64,
    thrown: u64,
}

// Lists a place where a fact was not led on.
fn list(
    task: &Task,
    solution: &Solution,
    led: &Solution,
    agenda: &mut Agenda,
    site: Site,
) -> Result<(), AllocError>
    requires place { HasPlace task.now.subject.now task.now.lock.0 solution.now site.method.0 site.index }
    requires led { HasPlaces task.now.subject.now led.now }
{
    let _ = task;
    let word = solution.at_word(site.method, site.index);
    if without(word, led.at_word(site.method, site.index)) == 0 {
        return Ok(());
    }
    agenda.list(site)
}

fn list_successors(
    task: &Task,
    solution: &Solution,
    led: &Solution,
    agenda: &mut Agenda,
    site: Site,
) -> Result<(), AllocError>
    requires place { HasPlace task.now.subject.now task.now.lock.0 solution.now site.method.0 site.index }
    requires led { HasPlaces task.now.subject.now led.now }
{
    let method = site.method;
    for number in 0..u32::MAX {
        let Some(index) = task.successor(site, number) else {
            return Ok(());
        };
        list(task, solution, led, agenda, Site { method, index })?;
    }
    Ok(())
}

fn list_handlers(
    task: &Task,
    solution: &Solution,
    led: &Solution,
    agenda: &mut Agenda,
    site: Site,
) -> Result<(), AllocError>
    requires place { HasPlace task.now.subject.now task.now.lock.0 solution.now site.method.0 site.index }
    requires led { HasPlaces task.now.subject.now led.now }
{
    let method = site.method;
    for number in 0..u32::MAX {
        let Some(index) = task.handler(site, number) else {
            return Ok(());
        };
        list(task, solution, led, agenda, Site { method, index })?;
    }
    Ok(())
}

fn list_callees(
    task: &Task,
    solution: &Solution,
    led: &Solution,
    agenda: &mut Agenda,
    site: Site,
) -> Result<(), AllocError>
    requires place { HasPlace task.now.subject.now task.now.lock.0 solution.now site.method.0 site.index }
    requires led { HasPlaces task.now.subject.now led.now }
{
    let callees = task.callees(site);
    for number in 0..callees.len() {
        let method = callees[number];
        list(task, solution, led, agenda, Site { method, index: 0 })?;
    }
    Ok(())
}

// What an instruction led to, where `before` is how its method ended before.
fn list_led(
    task: &Task,
    solution: &Solution,
    led: &Solution,
    agenda: &mut Agenda,
    site: Site,
    before: Ends,
) -> Result<(), AllocError>
    requires place { HasPlace task.now.subject.now task.now.lock.0 solution.now site.method.0 site.index }
    requires led { HasPlaces task.now.subject.now led.now }
{
    list_successors(task, solution, led, agenda, site)?;
    list_handlers(task, solution, led, agenda, site)?;
    list_callees(task, solution, led, agenda, site)?;
    let after = ends_of(task, solution, site);
    if after.returned == before.returned && after.thrown == before.thrown {
        return Ok(());
    }
    agenda.call_again(site.method)
}

fn ends_of(task: &Task, solution: &Solution, site: Site) -> Ends
    requires { HasPlace task.now.subject.now task.now.lock.0 solution.now site.method.0 site.index }
{
    let _ = task;
    Ends {
        returned: solution.ret_word(site.method),
        thrown: solution.exc_word(site.method),
    }
}

fn is_place(task: &Task, site: Site) -> bool
    requires { task.now.lock.0 < slot_count task.now.subject.now }
    ensures { result ≡ true → IsPlace task.now.subject.now task.now.lock.0 site.method.0 site.index }
{
    if site.method.0 >= task.method_count() {
        return false;
    }
    if !task.subject.reaches(site.method) {
        return false;
    }
    site.index < task.code_len(site.method)
}

fn look_at<R: Rows>(
    task: &Task,
    rows: &mut R,
    solution: &mut Solution,
    led: &mut Solution,
    agenda: &mut Agenda,
    site: Site,
) -> Result<(), AllocError>
    requires facts { AreFacts task.now.subject.now task.now.lock.0 solution.old }
    requires led { AreLed task.now.subject.now task.now.lock.0 (R.masks rows.old) led.old solution.old }
    ensures { Nears task.now.subject.now task.now.lock.0 (R.masks rows.old) (R.masks rows.new) solution.old solution.new led.new }
{
    if !is_place(task, site) {
        return Ok(());
    }
    if led.at_word(site.method, site.index) == 0 {
        agenda.wait(site, task.callees(site))?;
    }
    let before = ends_of(task, solution, site);
    if !lead_new(task, rows, solution, led, site) {
        return Ok(());
    }
    list_led(task, solution, led, agenda, site, before)
}

// A callee ends in new ways.
fn call_again(
    task: &Task,
    solution: &mut Solution,
    led: &Solution,
    agenda: &mut Agenda,
    site: Site,
) -> Result<(), AllocError>
    requires facts { AreFacts task.now.subject.now task.now.lock.0 solution.old }
    requires led { HasPlaces task.now.subject.now led.now }
    ensures { (masks : AllMasks) → Keeps (InsideBy task.now.subject.now task.now.lock.0) masks masks solution.old solution.new }
{
    if !is_place(task, site) {
        return Ok(());
    }
    let before = ends_of(task, solution, site);
    let word = solution.at_word(site.method, site.index);
    if !call_all(task, solution, site, word) {
        return Ok(());
    }
    list_led(task, solution, led, agenda, site, before)
}

fn look<R: Rows>(
    task: &Task,
    rows: &mut R,
    solution: &mut Solution,
    led: &mut Solution,
    agenda: &mut Agenda,
    next: Look,
) -> Result<(), AllocError>
    requires facts { AreFacts task.now.subject.now task.now.lock.0 solution.old }
    requires led { AreLed task.now.subject.now task.now.lock.0 (R.masks rows.old) led.old solution.old }
    ensures { Nears task.now.subject.now task.now.lock.0 (R.masks rows.old) (R.masks rows.new) solution.old solution.new led.new }
{
    match next {
        Look::Place(site) => look_at(task, rows, solution, led, agenda, site),
        Look::Call(site) => call_again(task, solution, led, agenda, site),
    }
}

fn list_method(
    task: &Task,
    solution: &Solution,
    led: &Solution,
    agenda: &mut Agenda,
    method: MethodNo,
    limit: u32,
) -> Result<(), AllocError>
    requires facts { AreFacts task.now.subject.now task.now.lock.0 solution.now }
    requires method { method.0 < length task.now.subject.now.app.methods }
    requires led { HasPlaces task.now.subject.now led.now }
{
    if !task.subject.reaches(method) {
        return Ok(());
    }
    for index in 0..limit.min(task.code_len(method)) {
        list(task, solution, led, agenda, Site { method, index })?;
    }
    Ok(())
}

/// Lists the places where facts were not led on, so many in front of each method.
pub fn list_new(
    task: &Task,
    solution: &Solution,
    led: &Solution,
    agenda: &mut Agenda,
    limit: u32,
) -> Result<(), AllocError>
    requires facts { AreFacts task.now.subject.now task.now.lock.0 solution.now }
    requires led { HasPlaces task.now.subject.now led.now }
{
    for method in 0..task.method_count() {
        list_method(task, solution, led, agenda, MethodNo(method), limit)?;
    }
    Ok(())
}

/// Looks at all that is listed, and at what comes to the list.
pub fn work_off<R: Rows>(
    task: &Task,
    rows: &mut R,
    solution: &mut Solution,
    led: &mut Solution,
    agenda: &mut Agenda,
) -> Result<(), AllocError>
    requires facts { AreFacts task.now.subject.now task.now.lock.0 solution.old }
    requires led { AreLed task.now.subject.now task.now.lock.0 (R.masks rows.old) led.old solution.old }
    ensures { Nears task.now.subject.now task.now.lock.0 (R.masks rows.old) (R.masks rows.new) solution.old solution.new led.new }
{
    // A bounded loop needs no measure.
    for _ in 0..u64::MAX {
        let Some(next) = agenda.next() else {
            return Ok(());
        };
        look(task, rows, solution, led, agenda, next)?;
    }
    Ok(())
}

fn lead_entered<R: Rows>(
    task: &Task,
    rows: &mut R,
    solution: &mut Solution,
    led: &mut Solution,
    agenda: &mut Agenda,
) -> Result<(), AllocError>
    requires facts { AreFacts task.now.subject.now task.now.lock.0 solution.old }
    requires led { AreLed task.now.subject.now task.now.lock.0 (R.masks rows.old) led.old solution.old }
    ensures { Nears task.now.subject.now task.now.lock.0 (R.masks rows.old) (R.masks rows.new) solution.old solution.new led.new }
{
    list_new(task, solution, led, agenda, 1)?;
    work_off(task, rows, solution, led, agenda)
}

/// Brings the facts near to all that the rules inside callbacks derive from them, where only the starts of methods have facts
/// that were not led on.
pub fn approach_calls<R: Rows>(
    task: &Task,
    rows: &mut R,
    solution: &mut Solution,
    worklist: &mut Worklist,
) -> Result<(), OutOfMemory>
    requires facts { AreFacts task.now.subject.now task.now.lock.0 solution.old }
    requires led { AreLed task.now.subject.now task.now.lock.0 (R.masks rows.old) worklist.old solution.old }
    ensures { Nears task.now.subject.now task.now.lock.0 (R.masks rows.old) (R.masks rows.new) solution.old solution.new worklist.new }
{
    match lead_entered(
        task,
        rows,
        solution,
        &mut worklist.led,
        &mut worklist.agenda,
    ) {
        Ok(()) => Ok(()),
        Err(AllocError) => Err(OutOfMemory),
    }
}
