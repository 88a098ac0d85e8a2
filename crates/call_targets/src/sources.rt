//! What decides what a call can call.
ghost use Rattle.std.specs.Prelude.{◌≡◌, ◌<◌, ◌∷◌, [], ℕ, IfOk, IfSome, length};
ghost use Rattle.app_model.specs.Hierarchy.{lookup_of};
ghost use Rattle.app_model.specs.Sound.{IsType};
ghost use Rattle.app_model.specs.Targets as spec;
ghost use Rattle.call_targets.specs.Signatures.{classes_in};
ghost use Rattle.call_targets.specs.Sources.{IsUnknownOne, IsIndex, row_from, found_from, key_parts};

use crate::declared::{Declared, declared_classes};
use app_model::{App, By, LockUse, Named, call_by};
use class_graph::is_unknown;
use dalvik::opcode;
use ns_base::{ClassNo, MethodNo, NameNo, ProtoNo, TypeNo};
use std::alloc::{AllocError, Global};
use std::marker::Model;

/// What calls of one kind and of one named method share; those of invoke-super in one class.
#[derive(Clone, Copy, PartialEq, Eq, Hash)]
pub(crate) struct Key {
    pub kind: u8,
    pub caller: Option<u32>,
    pub class: u32,
    pub name: u32,
    pub proto: u32,
}

/// What decides what a call can call: a name and prototype, looked up from type `one`, or in all classes
/// that an object of type `below` may be of. With neither the call leads outside.
#[derive(Clone, Copy, PartialEq, Eq, Hash)]
pub(crate) struct Source {
    pub one: Option<u32>,
    pub below: Option<u32>,
    pub name: u32,
    pub proto: u32,
}

/// What is known of an application's names: the classes that declare methods, and a type of which its
/// files say nothing, if there is one.
#[derive(Drop)]
pub(crate) struct Index {
    pub declared: Declared,
    pub unknown: Option<TypeNo>,
}

impl Model for Index {
    ghost use Rattle.call_targets.specs.Sources.{IndexParts};

    ghost Value = { IndexParts };

    ghost view = { λ i. record { declared = i.declared; unknown = i.unknown } };
}

impl Index {
    /// The classes that declare such a method.
    pub fn declaring(&self, name: NameNo, proto: ProtoNo) -> &[ClassNo]
        ensures { result.now ≡ classes_in self.now.declared name.0 proto.0 }
    {
        match self.declared.classes(name, proto) {
            Some(classes) => classes,
            None => &[],
        }
    }
}

// The first type of which the files say nothing.
fn unknown_type(app: &App) -> Option<TypeNo>
    ensures { IfSome result (IsUnknownOne app.now) }
{
    for t in 0..app.type_count() {
        if is_unknown(app, TypeNo(t)) {
            return Some(TypeNo(t));
        }
    }
    None
}

pub(crate) fn make_index(alloc: Global, app: &App) -> Result<Index, AllocError>
    ensures { IfOk result (IsIndex app.now) }
{
    let declared = declared_classes(alloc, app)?;
    Ok(Index {
        declared,
        unknown: unknown_type(app),
    })
}

// The opcode of the plain form of an invoke.
fn plain_form(op: u8) -> u8
    ensures { result ≡ spec.plain_form op }
{
    match op {
        opcode::INVOKE_VIRTUAL_RANGE => opcode::INVOKE_VIRTUAL,
        opcode::INVOKE_SUPER_RANGE => opcode::INVOKE_SUPER,
        opcode::INVOKE_DIRECT_RANGE => opcode::INVOKE_DIRECT,
        opcode::INVOKE_STATIC_RANGE => opcode::INVOKE_STATIC,
        opcode::INVOKE_INTERFACE_RANGE => opcode::INVOKE_INTERFACE,
        _ => op,
    }
}

/// The key of a call in a method.
pub(crate) fn key_of(app: &App, op: u8, method: MethodNo, named: Named) -> Key
    requires { method.0 < length app.now.methods }
    ensures { result ≡ key_parts (spec.key_of app.now method.0 op named) }
{
    let kind = plain_form(op);
    let caller = if kind == opcode::INVOKE_SUPER {
        Some(app.method(method).class.0)
    } else {
        None
    };
    Key {
        kind,
        caller,
        class: named.class.0,
        name: named.name.0,
        proto: named.proto.0,
    }
}

#[tactic(auto, unfolding(app_model::specs::Targets::is_on_array))]
fn is_on_array(app: &App, named: Named) -> bool
    ensures { result ≡ spec.is_on_array app.now named }
{
    match app.type_text(named.class).first() {
        Some(byte) => *byte == b'[',
        None => false,
    }
}

// A call that leads outside whatever the application declares.
#[tactic(auto, unfolding(app_model::specs::Targets::is_foreign))]
fn is_foreign(app: &App, op: u8, named: Named) -> bool
    ensures { result ≡ spec.is_foreign app.now op named }
{
    is_on_array(app, named) || app.use_of(op, named) != LockUse::Plain
}

fn make_source(one: Option<u32>, below: Option<u32>, named: Named) -> Source
    ensures { result ≡ record { one = one; below = below; name = named.name.0; proto = named.proto.0 } }
{
    Source {
        one,
        below,
        name: named.name.0,
        proto: named.proto.0,
    }
}

// A look-up from one type.
#[tactic(auto, using(crate::proofs::Look::look_none))]
fn one_source(app: &App, class: TypeNo, named: Named) -> Source
    ensures { found_from app.now result ≡ lookup_of app.now class.0 named.name.0 named.proto.0 ∷ [] }
{
    app.told();
    match app.class_of_type(class) {
        Some(_) => make_source(Some(class.0), None, named),
        None => make_source(None, None, named),
    }
}

// A look-up from the superclass of a method's class.
#[tactic(auto, unfolding(app_model::specs::Targets::super_of))]
fn super_source(app: &App, method: MethodNo, named: Named) -> Source
    requires { method.0 < length app.now.methods }
    ensures { found_from app.now result ≡ spec.found_above app.now (spec.super_of app.now method.0) named ∷ [] }
{
    match app.class(app.method(method).class).parent {
        Some(class) => one_source(app, class, named),
        None => make_source(None, None, named),
    }
}

// A look-up on the receiver. All types of which the files say nothing have the same.
fn receiver_source(app: &App, index: &Index, named: Named) -> Source
    requires index { IsIndex app.now index.now }
    requires named { IsType app.now named.class }
    ensures { (m : ℕ) → row_from app.now result ≡ spec.row_of (length app.now.methods) (spec.found_virtually app.now m named) }
{
    app.told();
    if index.declared.classes(named.name, named.proto).is_none() {
        return make_source(None, None, named);
    }
    match index.unknown {
        Some(unknown) if is_unknown(app, named.class) => make_source(None, Some(unknown.0), named),
        _ => make_source(None, Some(named.class.0), named),
    }
}

/// What decides what a call can call.
pub(crate) fn source_of(app: &App, index: &Index, op: u8, method: MethodNo, named: Named) -> Source
    requires index { IsIndex app.now index.now }
    requires method { method.0 < length app.now.methods }
    requires named { IsType app.now named.class }
    ensures { row_from app.now result ≡ spec.targets_of_call app.now method.0 op named }
{
    if is_foreign(app, op, named) {
        return make_source(None, None, named);
    }
    match call_by(op) {
        By::Virtual => receiver_source(app, index, named),
        By::Super => super_source(app, method, named),
        By::Direct => one_source(app, named.class, named),
        By::Static => one_source(app, named.class, named),
    }
}
