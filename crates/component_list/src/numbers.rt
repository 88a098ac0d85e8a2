//! The numbers that an application has for the names and prototypes of callbacks.
ghost use Rattle.std.specs.Prelude.{◌≡◌, ◌<◌, length, map, option_and_then, slice_get, IfOk};
ghost use Rattle.app_model.specs.Components.{bare, callbacks_of, name_number, proto_number, prototypes_of, service_prototypes, taking};
ghost use Rattle.app_model.specs.Parts.{AppParts};
ghost use Rattle.component_list.specs.Binding.{as_name, as_proto, HasNumbers, numbers_of};

use crate::callbacks::{callback_count, callback_name};
use app_model::{App, Kind};
use ns_base::{NameNo, ProtoNo};
use std::alloc::{AllocError, Global};

const INTENT: &[u8] = b"Landroid/content/Intent;";

/// The numbers of a callback's name and prototype, where the application has them.
#[derive(Clone, Copy, Debug, PartialEq, Eq)]
pub(crate) struct Callback {
    pub name: Option<NameNo>,
    pub proto: Option<ProtoNo>,
}

/// The callbacks of each kind.
#[derive(Drop)]
pub(crate) struct Callbacks {
    activity: Vec<Callback>,
    service: Vec<Callback>,
    receiver: Vec<Callback>,
    runnable: Vec<Callback>,
}

fn find_name(app: &App, name: &[u8]) -> Option<NameNo>
    ensures { result ≡ as_name (name_number app.now name.now) }
{
    for n in 0..app.name_count() {
        if name == app.name(NameNo(n)) {
            return Some(NameNo(n));
        }
    }
    None
}

fn find_proto(app: &App, output: &[u8], params: &[&[u8]]) -> Option<ProtoNo>
    ensures { result ≡ as_proto (proto_number app.now (taking (map (λ p. p.now) params.now) output.now)) }
{
    for p in 0..app.proto_count() {
        let proto = ProtoNo(p);
        let _row = app.proto(proto);
        if app.is_proto(proto, output, params) {
            return Some(ProtoNo(p));
        }
    }
    None
}

fn callback_name_number(app: &App, kind: Kind, number: u8) -> Option<NameNo>
    ensures { result ≡ as_name (option_and_then (name_number app.now) (slice_get (callbacks_of kind) number)) }
{
    match callback_name(kind, number) {
        Some(name) => find_name(app, name.as_bytes()),
        None => None,
    }
}

fn find_bare(app: &App) -> Option<ProtoNo>
    ensures { result ≡ as_proto (proto_number app.now bare) }
{
    find_proto(app, b"V", &[])
}

fn service_proto(app: &App, number: u8) -> Option<ProtoNo>
    ensures { result ≡ as_proto (option_and_then (proto_number app.now) (slice_get service_prototypes number)) }
{
    match number {
        0 => find_bare(app),
        1 => find_proto(app, b"I", &[INTENT, b"I", b"I"]),
        2 => find_proto(app, b"V", &[INTENT, b"I"]),
        3 => find_proto(app, b"Landroid/os/IBinder;", &[INTENT]),
        4 => find_proto(app, b"Z", &[INTENT]),
        5 => find_proto(app, b"V", &[INTENT]),
        6 => find_bare(app),
        _ => None,
    }
}

fn callback_proto_number(app: &App, kind: Kind, number: u8) -> Option<ProtoNo>
    requires { number < length (callbacks_of kind) }
    ensures { result ≡ as_proto (option_and_then (proto_number app.now) (slice_get (prototypes_of kind) number)) }
{
    match (kind, number) {
        (Kind::Activity, 0) => find_proto(app, b"V", &[b"Landroid/os/Bundle;"]),
        (Kind::Service, _) => service_proto(app, number),
        (Kind::Receiver, _) => find_proto(app, b"V", &[b"Landroid/content/Context;", INTENT]),
        (Kind::Activity, _) | (Kind::Runnable, _) => find_bare(app),
    }
}

fn find_callbacks(alloc: Global, app: &App, kind: Kind) -> Result<Vec<Callback>, AllocError>
    ensures { IfOk result (λ found. found.items ≡ numbers_of app.now kind) }
{
    let mut found = Vec::new(alloc);
    for number in 0..callback_count(kind) {
        let name = callback_name_number(app, kind, number);
        let proto = callback_proto_number(app, kind, number);
        found.push(Callback { name, proto })?;
    }
    Ok(found)
}

impl Callbacks {
    /// The callbacks of all kinds in an application.
    pub fn find(alloc: Global, app: &App) -> Result<Callbacks, AllocError>
        ensures { IfOk result (HasNumbers app.now) }
    {
        Ok(Callbacks {
            activity: find_callbacks(alloc, app, Kind::Activity)?,
            service: find_callbacks(alloc, app, Kind::Service)?,
            receiver: find_callbacks(alloc, app, Kind::Receiver)?,
            runnable: find_callbacks(alloc, app, Kind::Runnable)?,
        })
    }

    /// The callbacks of a kind, in their order.
    pub fn of_kind(&self, kind: Kind) -> &[Callback]
        ensures { (app : AppParts) → HasNumbers app self.now → result.now ≡ numbers_of app kind }
    {
        match kind {
            Kind::Activity => &self.activity,
            Kind::Service => &self.service,
            Kind::Receiver => &self.receiver,
            Kind::Runnable => &self.runnable,
        }
    }
}
