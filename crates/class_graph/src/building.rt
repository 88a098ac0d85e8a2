//! Making the class hierarchy of an application.
ghost use Rattle.std.specs.Prelude.{◌≡◌, ◌<◌, ◌+◌, IfOk, length};
ghost use Rattle.class_graph.specs.Belongs.{IsClassGraph};
ghost use Rattle.class_graph.specs.Built.{IsBuilt, AreMethods, AreFields};

use crate::above::above_rows;
use crate::graph::ClassGraph;
use crate::kinds::kind_rows;
use crate::members::{Member, Members};
use app_model::App;
use dalvik::access;
use ns_base::{FieldNo, MethodNo, OutOfMemory};
use std::alloc::{AllocError, Global};

// The next method, if a look-up may find it.
fn add_method(app: &App, members: &mut Members, method: MethodNo) -> Result<(), AllocError>
    requires method { method.0 < length app.now.methods }
    requires before { AreMethods app.now method.0 members.old }
    ensures { IfOk result (λ done. AreMethods app.now (method.0 + 1) members.new) }
{
    let row = app.method(method);
    if row.flags & access::ABSTRACT != 0 {
        return Ok(());
    }
    let member = Member {
        class: row.class.0,
        name: row.name.0,
        second: row.proto.0,
    };
    members.add(member, method.0)?;
    Ok(())
}

fn method_rows(alloc: Global, app: &App) -> Result<Members, AllocError>
    ensures { IfOk result (λ members. AreMethods app.now (length app.now.methods) members) }
{
    let mut members = Members::new(alloc);
    for m in 0..app.method_count() {
        add_method(app, &mut members, MethodNo(m))?;
    }
    Ok(members)
}

fn add_field(app: &App, members: &mut Members, field: FieldNo) -> Result<(), AllocError>
    requires field { field.0 < length app.now.fields }
    requires before { AreFields app.now field.0 members.old }
    ensures { IfOk result (λ done. AreFields app.now (field.0 + 1) members.new) }
{
    let row = app.field(field);
    let member = Member {
        class: row.class.0,
        name: row.name.0,
        second: row.kind.0,
    };
    members.add(member, field.0)?;
    Ok(())
}

fn field_rows(alloc: Global, app: &App) -> Result<Members, AllocError>
    ensures { IfOk result (λ members. AreFields app.now (length app.now.fields) members) }
{
    let mut members = Members::new(alloc);
    for f in 0..app.field_count() {
        add_field(app, &mut members, FieldNo(f))?;
    }
    Ok(members)
}

fn build_parts(alloc: Global, app: &App) -> Result<ClassGraph, AllocError>
    ensures { IfOk result (IsBuilt app.now) }
{
    let kinds = kind_rows(alloc, app)?;
    let above = above_rows(alloc, app)?;
    let methods = method_rows(alloc, app)?;
    let fields = field_rows(alloc, app)?;
    Ok(ClassGraph {
        kinds,
        above,
        methods,
        fields,
    })
}

/// The class hierarchy of an application.
#[tactic(auto, using(crate::proofs::Tells::answers_so))]
pub fn build(alloc: Global, app: &App) -> Result<ClassGraph, OutOfMemory>
    ensures { IfOk result (IsClassGraph app.now) }
{
    app.told();
    match build_parts(alloc, app) {
        Ok(graph) => Ok(graph),
        Err(AllocError) => Err(OutOfMemory),
    }
}
