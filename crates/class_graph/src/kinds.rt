//! A row for each type.
ghost use Rattle.std.specs.Prelude.{◌≡◌, ◌<◌, IfOk, length};
ghost use Rattle.app_model.specs.Hierarchy.{is_unknown};
ghost use Rattle.class_graph.specs.Built.{AreKinds, IsKind, is_unknown_parent, has_unknown};

use app_model::App;
use ns_base::{ClassNo, TypeNo};
use std::alloc::{AllocError, Global};

/// The class of every object, in no file of an application.
const OBJECT: &[u8] = b"Ljava/lang/Object;";

/// The class of a type, if it is one of the application's, and whether the files say nothing of the type.
#[derive(Clone, Copy)]
pub(crate) struct KindRow {
    pub class: Option<ClassNo>,
    pub unknown: bool,
}

/// Whether the files say nothing of a type, so that it may stand below others that they say nothing of.
#[tactic(auto, unfolding(app_model::specs::Hierarchy::is_unknown))]
pub fn is_unknown(app: &App, kind: TypeNo) -> bool
    ensures { result ≡ is_unknown app.now kind.0 }
{
    app.class_of_type(kind).is_none() && app.type_text(kind) != OBJECT
}

pub(crate) fn is_unknown_parent(app: &App, parent: Option<TypeNo>) -> bool
    ensures { result ≡ is_unknown_parent app.now parent }
{
    match parent {
        Some(kind) => is_unknown(app, kind),
        None => false,
    }
}

/// Whether the files say nothing of one of these types.
pub(crate) fn has_unknown(app: &App, kinds: &[TypeNo]) -> bool
    ensures { result ≡ has_unknown app.now kinds.now }
{
    for i in 0..kinds.len() {
        if is_unknown(app, kinds[i]) {
            return true;
        }
    }
    false
}

fn kind_row(app: &App, kind: TypeNo) -> KindRow
    ensures { IsKind app.now kind.0 result }
{
    KindRow {
        class: app.class_of_type(kind),
        unknown: is_unknown(app, kind),
    }
}

pub(crate) fn kind_rows(alloc: Global, app: &App) -> Result<Vec<KindRow>, AllocError>
    ensures { IfOk result (λ kinds. AreKinds app.now kinds.items) }
{
    let mut kinds = Vec::with_capacity(alloc, app.type_count() as usize)?;
    for t in 0..app.type_count() {
        kinds.push(kind_row(app, TypeNo(t)))?;
    }
    Ok(kinds)
}
