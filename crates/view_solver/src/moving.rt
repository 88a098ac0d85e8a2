//! The rules between callbacks, and the starts of callbacks.
ghost use Rattle.std.specs.Prelude.{◌≡◌, ◌<◌, ℕ, true, length};
ghost use Rattle.solution.specs.Words.{has};
ghost use Rattle.solver.specs.Turns.{AreFacts, Every, Each};
ghost use Rattle.view_solver.specs.Views.{HasEdge, Moved, Moves, Begun, Started, MovedOn, EdgeDone, Watched, Told, ComponentDone, AllDone};

use crate::carrying::{carry_word, enter_word, moves};
use crate::edges::{component_count, edge_of, edges_of};
use app_model::{Edge, Subject};
use ns_base::{ComponentNo, LockNo};
use solution::{Solution, itself, join, lead, one, shifted, without};

fn begin(subject: &Subject, lock: LockNo, solution: &mut Solution, component: ComponentNo) -> bool
    requires facts { AreFacts subject.now lock.0 solution.old }
    requires component { component.0 < length subject.now.list }
    ensures { Moved subject.now lock.0 (Begun component.0) solution.old solution.new result }
{
    solution.join_view(component, one(0, 0))
}

fn start(
    subject: &Subject,
    lock: LockNo,
    solution: &mut Solution,
    component: ComponentNo,
    edge: Edge,
) -> bool
    requires { HasEdge subject.now lock.0 solution.old component.0 edge }
    ensures { Moved subject.now lock.0 (Started subject.now lock.0 component.0 edge) solution.old solution.new result }
{
    let Some(method) = subject.callback(component, edge.callback as u32) else {
        return false;
    };
    let seen = solution.view(component, edge.from);
    let entered = lead(seen, enter_word(subject, lock, component, edge));
    solution.join_at(method, 0, itself(entered))
}

fn move_on(
    subject: &Subject,
    lock: LockNo,
    solution: &mut Solution,
    component: ComponentNo,
    edge: Edge,
) -> bool
    requires { HasEdge subject.now lock.0 solution.old component.0 edge }
    ensures { Moved subject.now lock.0 (MovedOn subject.now lock.0 component.0 edge) solution.old solution.new result }
{
    let seen = solution.view(component, edge.from);
    let after = lead(seen, carry_word(subject, lock, solution, component, edge));
    solution.join_view(component, shifted(after, edge.to))
}

fn take_edge(
    subject: &Subject,
    lock: LockNo,
    solution: &mut Solution,
    component: ComponentNo,
    number: u32,
) -> bool
    requires facts { AreFacts subject.now lock.0 solution.old }
    requires component { component.0 < length subject.now.list }
    ensures { Moved subject.now lock.0 (EdgeDone subject.now lock.0 component.0 number) solution.old solution.new result }
{
    let Some(edge) = edge_of(subject, component, number) else {
        return false;
    };
    let started = start(subject, lock, solution, component, edge);
    let moved = move_on(subject, lock, solution, component, edge);
    started | moved
}

fn take_edges(
    subject: &Subject,
    lock: LockNo,
    solution: &mut Solution,
    component: ComponentNo,
) -> bool
    requires facts { AreFacts subject.now lock.0 solution.old }
    requires component { component.0 < length subject.now.list }
    ensures { Moved subject.now lock.0 (Every (EdgeDone subject.now lock.0 component.0)) solution.old solution.new result }
{
    let mut changed = false;
    for number in 0..edges_of(subject, component) {
        changed |= take_edge(subject, lock, solution, component, number);
    }
    changed
}

// Another component sees the moves of one.
fn watch(
    subject: &Subject,
    lock: LockNo,
    solution: &mut Solution,
    component: ComponentNo,
    mover: ComponentNo,
    moved: u64,
) -> bool
    requires facts { AreFacts subject.now lock.0 solution.old }
    requires component { component.0 < length subject.now.list }
    requires moves { (s u : ℕ) → has moved s u ≡ true → Moves subject.now lock.0 solution.old mover.0 s u }
    ensures { Moved subject.now lock.0 (Watched moved mover.0 component.0) solution.old solution.new result }
{
    if component.0 == mover.0 {
        return false;
    }
    let seen = solution.view_word(component);
    solution.join_view(component, join(seen, moved))
}

fn tell_each(
    subject: &Subject,
    lock: LockNo,
    solution: &mut Solution,
    mover: ComponentNo,
    moved: u64,
) -> bool
    requires facts { AreFacts subject.now lock.0 solution.old }
    requires moves { (s u : ℕ) → has moved s u ≡ true → Moves subject.now lock.0 solution.old mover.0 s u }
    ensures { Moved subject.now lock.0 (Each (Watched moved mover.0) (length subject.now.list)) solution.old solution.new result }
{
    let mut changed = false;
    for component in 0..component_count(subject) {
        changed |= watch(
            subject,
            lock,
            solution,
            ComponentNo(component),
            mover,
            moved,
        );
    }
    changed
}

// Moves that change no status are nothing to the others.
fn tell(subject: &Subject, lock: LockNo, solution: &mut Solution, mover: ComponentNo) -> bool
    requires facts { AreFacts subject.now lock.0 solution.old }
    requires mover { mover.0 < length subject.now.list }
    ensures { Moved subject.now lock.0 (Told subject.now lock.0 mover.0) solution.old solution.new result }
{
    let moved = moves(subject, lock, solution, mover);
    if without(moved, itself(255)) == 0 {
        return false;
    }
    tell_each(subject, lock, solution, mover, moved)
}

fn move_one(
    subject: &Subject,
    lock: LockNo,
    solution: &mut Solution,
    component: ComponentNo,
) -> bool
    requires facts { AreFacts subject.now lock.0 solution.old }
    requires component { component.0 < length subject.now.list }
    ensures { Moved subject.now lock.0 (ComponentDone subject.now lock.0 component.0) solution.old solution.new result }
{
    let begun = begin(subject, lock, solution, component);
    let taken = take_edges(subject, lock, solution, component);
    let told = tell(subject, lock, solution, component);
    begun | taken | told
}

/// All components once: they begin, their callbacks start, and lead on where they return.
pub fn move_all(subject: &Subject, lock: LockNo, solution: &mut Solution) -> bool
    requires { AreFacts subject.now lock.0 solution.old }
    ensures { Moved subject.now lock.0 (AllDone subject.now lock.0) solution.old solution.new result }
{
    let mut changed = false;
    for component in 0..component_count(subject) {
        changed |= move_one(subject, lock, solution, ComponentNo(component));
    }
    changed
}
