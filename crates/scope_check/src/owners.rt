//! The component whose creation clears each instance lock field.
ghost use Rattle.std.specs.Prelude.{◌≡◌, ◌<◌, ◌^◌, IfOk, length};
ghost use Rattle.class_graph.specs.Belongs.{IsClassGraph};
ghost use Rattle.scope_check.specs.Answering.{AreOwners, IsOwner, IsOwnerOf};

use crate::survey::Survey;
use app_model::{App, ComponentRow, FieldRow};
use class_graph::ClassGraph;
use ns_base::{ComponentNo, LockNo};
use scope_facts::{field_of_lock, has_lock, is_static, may_own};
use std::alloc::{AllocError, Global};

// A component that may own an instance field.
fn owner_among(
    app: &App,
    classes: &ClassGraph,
    field: FieldRow,
    rows: &[ComponentRow],
) -> Option<ComponentNo>
    requires classes { IsClassGraph app.now classes.now }
    requires few { length rows.now < 2 ^ 32 }
    ensures { IsOwner app.now rows.now field result }
{
    for c in 0..rows.len() {
        if may_own(app, classes, field, &rows[c]) {
            return Some(ComponentNo(c as u32));
        }
    }
    None
}

fn owner_of_field(survey: &Survey, classes: &ClassGraph, field: FieldRow) -> Option<ComponentNo>
    requires { IsClassGraph survey.now.case.app classes.now }
    ensures { IsOwner survey.now.case.app survey.now.case.list field result }
{
    survey.case.told();
    owner_among(&survey.case.app, classes, field, &survey.case.list.rows)
}

fn owner_of(survey: &Survey, classes: &ClassGraph, lock: LockNo) -> Option<ComponentNo>
    requires { IsClassGraph survey.now.case.app classes.now }
    ensures { IsOwnerOf survey.now lock.0 result }
{
    let _ = &survey.case;
    match field_of_lock(&survey.case.app, lock) {
        Some(field) if !is_static(field) && has_lock(survey.locks.accessed, lock) => {
            owner_of_field(survey, classes, field)
        }
        _ => None,
    }
}

/// The owner of each lock field that is no static one, and that reached code accesses.
pub(crate) fn owners(
    alloc: Global,
    survey: &Survey,
    classes: &ClassGraph,
) -> Result<Vec<Option<ComponentNo>>, AllocError>
    requires { IsClassGraph survey.now.case.app classes.now }
    ensures { IfOk result (λ owners. AreOwners survey.now owners.items) }
{
    let count = survey.lock_count();
    let mut owners = Vec::with_capacity(alloc, count as usize)?;
    for l in 0..count {
        owners.push(owner_of(survey, classes, LockNo(l)))?;
    }
    Ok(owners)
}
