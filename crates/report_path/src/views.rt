//! The views of a report: whether each follows from earlier ones by an edge.
ghost use Rattle.std.specs.Prelude.{◌≡◌, ◌↔◌, IsTrue, length, slice_get};
ghost use Rattle.app_model.specs.Components.{edge_at};
ghost use Rattle.report_path.specs.Views.{Case, IsAfter, IsBeside, IsOther, IsOwn, IsStart, IsView, Moves};

use crate::report::{By, ViewStep};
use app_model::Edge;

/// Where the edges of lifecycles carry the status of a lock field, by what may be cited.
pub trait Carrier {
    ghost case: { Self → Case };

    fn component_count(&self) -> usize
        ensures { result ≡ length (case self.now).subject.list };

    /// An edge of a component.
    fn edge(&self, component: u32, number: u32) -> Option<Edge>
        ensures { result ≡ edge_at (case self.now).subject.list component number };

    /// Whether an edge leads on from a view to a status, by what is cited.
    fn moves(&self, view: ViewStep, edge: Edge, body: Option<u32>, status: u8) -> bool
        ensures { IsTrue result ↔ Moves (case self.now) view edge body status };
}

/// An edge from a view, by its number, and the body that is cited.
#[derive(Clone, Copy)]
struct Move {
    view: u32,
    edge: u32,
    body: Option<u32>,
}

/// The view of that number.
pub fn view_at(views: &[ViewStep], number: u32) -> Option<ViewStep>
    ensures { result ≡ slice_get views.now number }
{
    views.get(number as usize).copied()
}

fn is_start<T: Carrier>(task: &T, view: ViewStep) -> bool
    ensures { IsTrue result ↔ IsStart (T.case task.now) view }
{
    (view.component as usize) < task.component_count() && view.state == 0 && view.status == 0
}

fn is_after<T: Carrier>(
    task: &T,
    first: ViewStep,
    view: ViewStep,
    edge: Edge,
    body: Option<u32>,
) -> bool
    ensures { IsTrue result ↔ IsAfter (T.case task.now) first view body edge }
{
    if first.component != view.component {
        return false;
    }
    if edge.to != view.state {
        return false;
    }
    task.moves(first, edge, body, view.status)
}

fn is_own<T: Carrier>(task: &T, before: &[ViewStep], view: ViewStep, by: Move) -> bool
    ensures { IsTrue result ↔ IsOwn (T.case task.now) before.now view by.view by.edge by.body }
{
    let Some(first) = view_at(before, by.view) else {
        return false;
    };
    match task.edge(first.component, by.edge) {
        Some(edge) => is_after(task, first, view, edge, by.body),
        None => false,
    }
}

fn is_beside<T: Carrier>(
    task: &T,
    first: ViewStep,
    mover: ViewStep,
    view: ViewStep,
    edge: Edge,
    body: Option<u32>,
) -> bool
    ensures { IsTrue result ↔ IsBeside (T.case task.now) first mover view body edge }
{
    if first.component != view.component {
        return false;
    }
    if first.state != view.state {
        return false;
    }
    if first.status != mover.status {
        return false;
    }
    if mover.component == view.component {
        return false;
    }
    task.moves(mover, edge, body, view.status)
}

fn is_other<T: Carrier>(task: &T, before: &[ViewStep], view: ViewStep, first: u32, by: Move) -> bool
    ensures { IsTrue result ↔ IsOther (T.case task.now) before.now view first by.view by.edge by.body }
{
    let Some(first) = view_at(before, first) else {
        return false;
    };
    let Some(mover) = view_at(before, by.view) else {
        return false;
    };
    match task.edge(mover.component, by.edge) {
        Some(edge) => is_beside(task, first, mover, view, edge, by.body),
        None => false,
    }
}

/// Whether a view is valid, which may cite those before it.
pub fn is_view<T: Carrier>(task: &T, before: &[ViewStep], view: ViewStep) -> bool
    ensures { IsTrue result ↔ IsView (T.case task.now) before.now view }
{
    match view.by {
        By::Start => is_start(task, view),
        By::Outside { view: first, edge } => {
            let by = Move {
                view: first,
                edge,
                body: None,
            };
            is_own(task, before, view, by)
        }
        By::Own {
            view: first,
            edge,
            body,
        } => {
            let by = Move {
                view: first,
                edge,
                body: Some(body),
            };
            is_own(task, before, view, by)
        }
        By::Other {
            view: first,
            mover,
            edge,
            body,
        } => {
            let by = Move {
                view: mover,
                edge,
                body,
            };
            is_other(task, before, view, first, by)
        }
    }
}
