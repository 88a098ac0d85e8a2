//! The marked views.
ghost use Rattle.std.specs.Prelude.{◌≡◌, ◌<◌, IfOk, OnOk, length};
ghost use Rattle.derivation.specs.Cuts.{AreSeen, IsOneMoreView, by_of, view_of};

use crate::making::{number_at, number_of};
use crate::marking::{is_marked, view_at};
use report_path::{By, ViewStep};
use std::alloc::{AllocError, Global};

/// Views, and for each view of the log its place among them, or 0.
#[derive(Drop)]
pub struct Seen {
    pub views: Vec<ViewStep>,
    pub places: Vec<u32>,
}

fn way_of(places: &[u32], numbers: &[u32], by: By) -> By
    ensures { result ≡ by_of places.now numbers.now by }
{
    match by {
        By::Start => By::Start,
        By::Outside { view, edge } => By::Outside {
            view: number_of(places, view),
            edge,
        },
        By::Own { view, edge, body } => By::Own {
            view: number_of(places, view),
            edge,
            body: number_of(numbers, body),
        },
        By::Other {
            view,
            mover,
            edge,
            body,
        } => By::Other {
            view: number_of(places, view),
            mover: number_of(places, mover),
            edge,
            body: number_at(numbers, body),
        },
    }
}

fn step_of(places: &[u32], numbers: &[u32], v: ViewStep) -> ViewStep
    ensures { result ≡ view_of places.now numbers.now v }
{
    ViewStep {
        component: v.component,
        state: v.state,
        status: v.status,
        by: way_of(places, numbers, v.by),
    }
}

// One more view: its place, and the view if it is a marked one.
fn add_view(
    views: &[ViewStep],
    marks: &[bool],
    numbers: &[u32],
    seen: &mut Seen,
    k: usize,
) -> Result<(), AllocError>
    requires { k < length views.now }
    ensures { OnOk result (IsOneMoreView views.now marks.now numbers.now k seen.old.places.items seen.old.views.items seen.new.places.items seen.new.views.items) }
{
    let v = view_at(views, k);
    if !is_marked(marks, k) {
        seen.places.push(0)?;
        return Ok(());
    }
    let place = seen.views.len();
    if place > 4_294_967_295 {
        return Err(AllocError);
    }
    let step = step_of(&seen.places, numbers, v);
    seen.views.push(step)?;
    seen.places.push(place as u32)?;
    Ok(())
}

/// The marked views, in their order.
pub fn make_views(
    alloc: Global,
    views: &[ViewStep],
    marks: &[bool],
    numbers: &[u32],
) -> Result<Seen, AllocError>
    ensures { IfOk result (λ seen. (lines : _) → AreSeen lines views.now marks.now numbers.now seen.places.items seen.views.items (length views.now)) }
{
    let mut seen = Seen {
        views: Vec::new(alloc),
        places: Vec::new(alloc),
    };
    for k in 0..views.len() {
        add_view(views, marks, numbers, &mut seen, k)?;
    }
    Ok(seen)
}
