//! Binding a component list to an application.
ghost use Rattle.std.specs.Prelude.{◌≡◌, ◌<◌, ◌≤◌, ◌&&◌, IfOk, IfSome, length, option_map, slice_get};
ghost use Rattle.ns_base.specs.Steps.{IsExact};
ghost use Rattle.ns_base.specs.declared.rows.ClassNo.{ClassNo};
ghost use Rattle.ns_base.specs.declared.rows.NameNo.{NameNo};
ghost use Rattle.ns_base.specs.declared.rows.ProtoNo.{ProtoNo};
ghost use Rattle.app_model.specs.Components.{BelongsTo, found_on};
ghost use Rattle.class_graph.specs.Belongs.{IsClassGraph};
ghost use Rattle.component_list.specs.Binding.{as_method, bound_of, bound_row, class_named, has_one_callback, is_missing, methods_on, numbers_of};
ghost use Rattle.component_list.specs.Listed.{IsReadList};
ghost use Rattle.component_list.specs.Reading.{is_memory};

use crate::fault::ListFault;
use crate::listed::{Listed, ListedRow};
use crate::names::index_classes;
use crate::numbers::{Callback, Callbacks};
use app_model::{App, ComponentRow, ComponentTable, Kind};
use class_graph::{ClassGraph, Found};
use ns_base::{ClassNo, MethodNo};
use std::alloc::{AllocError, Global};
use std::collections::HashMap;
use std::marker::Model;

/// An application, with what binds a list to it: its class hierarchy, its classes by name and the numbers
/// of all callbacks.
#[derive(Drop)]
struct Binder<'a> {
    app: &'a App,
    classes: &'a ClassGraph,
    names: HashMap<&'a [u8], u32>,
    callbacks: Callbacks,
}

impl<'a> Model for Binder<'a> {
    ghost use Rattle.app_model.specs.Parts.{AppParts};
    ghost use Rattle.class_graph.specs.Belongs.{IsClassGraph};
    ghost use Rattle.component_list.specs.Binding.{HasNames, HasNumbers};

    ghost Value = { AppParts };

    ghost view = { λ b. b.app.now };

    ghost invariant = { λ b. IsClassGraph b.app.now b.classes.now × HasNames b.app.now b.names.entries × HasNumbers b.app.now b.callbacks };
}

impl<'a> Binder<'a> {
    fn new(alloc: Global, app: &'a App, classes: &'a ClassGraph) -> Result<Binder<'a>, AllocError>
        requires { IsClassGraph app.now classes.now }
        ensures { IfOk result (λ binder. binder ≡ app.now) }
    {
        let names = index_classes(alloc, app)?;
        let callbacks = Callbacks::find(alloc, app)?;
        Ok(Binder {
            app,
            classes,
            names,
            callbacks,
        })
    }

    // The class of a name.
    fn class(&self, name: &[u8]) -> Option<ClassNo>
        ensures is { option_map (λ (c : ClassNo). c.0) result ≡ class_named self.now name.now }
        ensures within { IfSome result (λ c. c.0 < length self.now.classes) }
    {
        match self.names.get(&name) {
            Some(class) => Some(ClassNo(*class)),
            None => None,
        }
    }

    fn callbacks(&self, kind: Kind) -> &[Callback]
        ensures { result.now ≡ numbers_of self.now kind }
    {
        self.callbacks.of_kind(kind)
    }

    // The method of a callback on a class.
    fn method(&self, class: ClassNo, callback: Callback) -> Option<MethodNo>
        requires { class.0 < length self.now.classes }
        ensures { result ≡ as_method (found_on self.now (slice_get self.now.classes class.0)
            (option_map (λ (n : NameNo). n.0) callback.name) (option_map (λ (p : ProtoNo). p.0) callback.proto)) }
    {
        let _class = self.app.class(class);
        let (Some(name), Some(proto)) = (callback.name, callback.proto) else {
            return None;
        };
        match self.classes.lookup(class, name, proto) {
            Found::App(method) => Some(method),
            Found::Outside => None,
        }
    }

    // The methods of the callbacks of a kind on a class.
    fn methods(
        &self,
        alloc: Global,
        class: ClassNo,
        kind: Kind,
    ) -> Result<Vec<Option<MethodNo>>, AllocError>
        requires { class.0 < length self.now.classes }
        ensures { IfOk result (λ methods. methods.items ≡ methods_on self.now class.0 kind) }
    {
        let callbacks = self.callbacks(kind);
        let mut methods = Vec::with_capacity(alloc, callbacks.len())?;
        for k in 0..callbacks.len() {
            methods.push(self.method(class, callbacks[k]))?;
        }
        Ok(methods)
    }

    #[tactic(auto, using(crate::proofs::BoundLaws::class_within))]
    fn row(
        &self,
        alloc: Global,
        component: u32,
        listed: &ListedRow,
    ) -> Result<ComponentRow, ListFault>
        ensures { IsExact is_memory result (bound_row self.now component listed.now) }
    {
        let Some(class) = self.class(listed.class.as_bytes()) else {
            return Err(ListFault::NoClass(component));
        };
        let methods = self.methods(alloc, class, listed.kind)?;
        if lacks_callback(listed.kind, &methods) {
            return Err(ListFault::NoCallback(component));
        }
        Ok(ComponentRow {
            class,
            kind: listed.kind,
            exits: listed.exits,
            methods,
        })
    }
}

// Whether a component of the kind has one callback, and no method for it.
fn lacks_callback(kind: Kind, methods: &[Option<MethodNo>]) -> bool
    ensures { result ≡ (has_one_callback kind && is_missing (slice_get methods.now 0)) }
{
    match kind {
        Kind::Activity | Kind::Service => false,
        Kind::Receiver | Kind::Runnable => matches!(methods.first(), Some(None)),
    }
}

#[tactic(auto, using(crate::proofs::BoundLaws::rows_next, crate::proofs::BoundLaws::rows_all))]
fn bind_rows(
    alloc: Global,
    binder: &Binder<'_>,
    listed: &[ListedRow],
) -> Result<ComponentTable, ListFault>
    requires { length listed.now ≤ 256 }
    ensures { IsExact is_memory result (bound_of binder.now listed.now) }
{
    let mut rows = Vec::with_capacity(alloc, listed.len())?;
    for i in 0..listed.len() {
        rows.push(binder.row(alloc, i as u32, &listed[i])?)?;
    }
    Ok(ComponentTable { rows })
}

/// The components of a list in an application, each with the methods of its callbacks, or the first fault
/// row by row: a class that the application does not have, then a one callback without a method.
#[tactic(auto, using(crate::proofs::BoundLaws::belongs))]
pub fn bind_list(
    alloc: Global,
    listed: &Listed,
    app: &App,
    classes: &ClassGraph,
) -> Result<ComponentTable, ListFault>
    requires list { IsReadList listed.now }
    requires classes { IsClassGraph app.now classes.now }
    ensures exact { IsExact is_memory result (bound_of app.now listed.now) }
    ensures belongs { IfOk result (BelongsTo app.now) }
{
    let binder = Binder::new(alloc, app, classes)?;
    bind_rows(alloc, &binder, &listed.rows)
}
