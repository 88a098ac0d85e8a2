//! Where an edge of a component leads the statuses.
ghost use Rattle.std.specs.Prelude.{◌≡◌, ◌<◌, length};
ghost use Rattle.app_model.specs.Subject.{slot_count};
ghost use Rattle.flow_model.specs.Rules as rules;
ghost use Rattle.solution.specs.Words.{AreRows};
ghost use Rattle.view_solver.specs.Views.{EnteredBy, Carried, MovesBy, Moves, HasEdge};
ghost use Rattle.solver.specs.Turns.{AreFacts};

use crate::edges::{edge_of, edges_of};
use app_model::{Edge, Subject};
use ns_base::{ComponentNo, LockNo};
use solution::{Solution, itself, join};

// Each status in its own row; and the same where the field is cleared.
const SAME: u64 = 0x8040_2010_0804_0201;

const RESET: u64 = 0x8080_0180_8080_0101;

fn clears(subject: &Subject, lock: LockNo, component: ComponentNo, edge: Edge) -> bool
    requires { lock.0 < slot_count subject.now }
    ensures { result ≡ rules.clears subject.now component.0 edge lock.0 }
{
    match subject.owner(lock) {
        Some(owner) => edge.creates && owner.0 == component.0,
        None => false,
    }
}

/// The status at which an edge begins its callback, as a row for each status before.
pub fn enter_word(subject: &Subject, lock: LockNo, component: ComponentNo, edge: Edge) -> u64
    requires { lock.0 < slot_count subject.now }
    ensures { AreRows (EnteredBy subject.now lock.0 component.0 edge) 8 result }
{
    if clears(subject, lock, component, edge) {
        RESET
    } else {
        SAME
    }
}

/// The statuses to which an edge carries, as a row for each status before.
pub fn carry_word(
    subject: &Subject,
    lock: LockNo,
    solution: &Solution,
    component: ComponentNo,
    edge: Edge,
) -> u64
    requires { HasEdge subject.now lock.0 solution.now component.0 edge }
    ensures { AreRows (Carried subject.now lock.0 solution.now component.0 edge) 8 result }
{
    let entered = enter_word(subject, lock, component, edge);
    let Some(method) = subject.callback(component, edge.callback as u32) else {
        return entered;
    };
    join(entered, solution.ret_word(method))
}

fn edge_moves(
    subject: &Subject,
    lock: LockNo,
    solution: &Solution,
    component: ComponentNo,
    number: u32,
) -> u64
    requires facts { AreFacts subject.now lock.0 solution.now }
    requires component { component.0 < length subject.now.list }
    ensures { AreRows (MovesBy subject.now lock.0 solution.now component.0 number) 8 result }
{
    let Some(edge) = edge_of(subject, component, number) else {
        return 0;
    };
    let seen = solution.view(component, edge.from);
    join(
        itself(seen),
        carry_word(subject, lock, solution, component, edge),
    )
}

/// Where the edges of a component that are open to it carry each status.
pub fn moves(subject: &Subject, lock: LockNo, solution: &Solution, component: ComponentNo) -> u64
    requires facts { AreFacts subject.now lock.0 solution.now }
    requires component { component.0 < length subject.now.list }
    ensures { AreRows (Moves subject.now lock.0 solution.now component.0) 8 result }
{
    let mut word = 0;
    for number in 0..edges_of(subject, component) {
        word |= edge_moves(subject, lock, solution, component, number);
    }
    word
}
