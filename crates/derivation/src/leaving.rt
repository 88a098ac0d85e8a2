//! What makes a violation, among the views and lines of a log: the first view that does.
ghost use Rattle.std.specs.Prelude.{◌≡◌, ◌<◌, ◌≤◌, ◌↔◌, IsTrue, Some, length, slice_get};
ghost use Rattle.app_model.specs.Components as components;
ghost use Rattle.report_path.specs.declared.goal.Goal.TheVariants.{Returned};
ghost use Rattle.derivation.specs.Ends.{CarriesBy, FirstEdge, FirstEnd, FirstRet, FirstView, IsRetLine, LeavesBy, LeavesFrom};

use crate::cutting::Exit;
use crate::marking::view_at;
use app_model::{Edge, Subject};
use fact_log::{FactLog, Line};
use flow_model::Violation;
use ns_base::LockNo;
use report_path::{Edges, Goal, ViewStep};

fn is_returned(goal: Goal) -> bool
    ensures { IsTrue result ↔ (goal ≡ Returned) }
{
    match goal {
        Goal::Before(_) => false,
        Goal::Returned => true,
        Goal::Thrown => false,
    }
}

fn is_ret(x: Line, method: u32, entry: u8, status: u8) -> bool
    ensures { IsTrue result ↔ IsRetLine x method entry status }
{
    if !is_returned(x.goal) {
        return false;
    }
    x.method == method && x.entry == entry && x.status == status
}

// The first line that says that a method returns so.
fn ret_line(lines: &[Line], method: u32, entry: u8, status: u8) -> Option<u32>
    requires { length lines.now ≤ 4294967295 }
    ensures { FirstRet lines.now method entry status result }
{
    for k in 0..lines.len() {
        if is_ret(lines[k], method, entry, status) {
            return Some(k as u32);
        }
    }
    None
}

// The end that an edge cites which leads from a view to a status.
fn end_for(
    subject: &Subject,
    lines: &[Line],
    bad: Violation,
    v: ViewStep,
    edge: Edge,
) -> Option<Option<u32>>
    requires { length lines.now ≤ 4294967295 }
    ensures { FirstEnd (CarriesBy subject.now bad lines.now v edge) result }
{
    let edges = Edges {
        subject,
        lock: LockNo(bad.lock),
    };
    let entry = edges.enter(v.component, edge, v.status);
    let Some(method) = edges.callback(v.component, edge) else {
        if bad.status == entry {
            return Some(None);
        }
        return None;
    };
    match ret_line(lines, method, entry, bad.status) {
        Some(line) => Some(Some(line)),
        None => None,
    }
}

fn edge_at(subject: &Subject, lock: u32, component: u32, number: u32) -> Option<Edge>
    ensures { result ≡ components.edge_at subject.now.list component number }
{
    let edges = Edges {
        subject,
        lock: LockNo(lock),
    };
    edges.edge(component, number)
}

// The end by which the edge of that number leads from a view to a violation.
fn end_by(
    subject: &Subject,
    lines: &[Line],
    bad: Violation,
    v: ViewStep,
    number: u32,
) -> Option<Option<u32>>
    requires { length lines.now ≤ 4294967295 }
    ensures { FirstEnd (LeavesBy subject.now bad lines.now v number) result }
{
    if v.component != bad.component {
        return None;
    }
    let Some(edge) = edge_at(subject, bad.lock, v.component, number) else {
        return None;
    };
    if edge.callback as u32 != bad.callback {
        return None;
    }
    if edge.from != v.state {
        return None;
    }
    end_for(subject, lines, bad, v, edge)
}

// The first edge that leads from view number n to a violation.
fn exit_from(subject: &Subject, lines: &[Line], bad: Violation, v: ViewStep, n: u32) -> Option<Exit>
    requires { length lines.now ≤ 4294967295 }
    ensures { FirstEdge (LeavesBy subject.now bad lines.now v) n result }
{
    for number in 0..16u32 {
        if let Some(end) = end_by(subject, lines, bad, v, number) {
            return Some(Exit {
                view: n,
                edge: number,
                end,
            });
        }
    }
    None
}

/// What makes a violation.
pub fn exit_of(subject: &Subject, log: &FactLog, bad: Violation) -> Option<Exit>
    requires lines { length log.now.lines.items ≤ 4294967295 }
    requires views { length log.now.views.items ≤ 4294967295 }
    ensures { FirstView (LeavesFrom subject.now bad log.now.lines.items log.now.views.items) result }
{
    let views: &[ViewStep] = &log.views;
    for n in 0..views.len() {
        let v = view_at(views, n);
        if let Some(exit) = exit_from(subject, &log.lines, bad, v, n as u32) {
            return Some(exit);
        }
    }
    None
}
