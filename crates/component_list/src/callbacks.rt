//! The callbacks of each kind, by number.
ghost use Rattle.std.specs.Prelude.{◌≡◌, ◌<◌, bytes_eq, length, option_map, position, slice_get, IfSome};
ghost use Rattle.app_model.specs.Components.{activity_callbacks, callbacks_of, service_callbacks};

use app_model::Kind;

/// How many callbacks a kind has.
pub(crate) fn callback_count(kind: Kind) -> u8
    ensures { result ≡ length (callbacks_of kind) }
{
    match kind {
        Kind::Activity | Kind::Service => 7,
        Kind::Receiver | Kind::Runnable => 1,
    }
}

fn activity_callback(number: u8) -> Option<&'static str>
    ensures { option_map (λ name. name.now) result ≡ slice_get activity_callbacks number }
{
    match number {
        0 => Some("onCreate"),
        1 => Some("onStart"),
        2 => Some("onResume"),
        3 => Some("onPause"),
        4 => Some("onStop"),
        5 => Some("onRestart"),
        6 => Some("onDestroy"),
        _ => None,
    }
}

fn service_callback(number: u8) -> Option<&'static str>
    ensures { option_map (λ name. name.now) result ≡ slice_get service_callbacks number }
{
    match number {
        0 => Some("onCreate"),
        1 => Some("onStartCommand"),
        2 => Some("onStart"),
        3 => Some("onBind"),
        4 => Some("onUnbind"),
        5 => Some("onRebind"),
        6 => Some("onDestroy"),
        _ => None,
    }
}

/// The name of a callback.
pub(crate) fn callback_name(kind: Kind, number: u8) -> Option<&'static str>
    ensures { option_map (λ name. name.now) result ≡ slice_get (callbacks_of kind) number }
{
    match (kind, number) {
        (Kind::Activity, _) => activity_callback(number),
        (Kind::Service, _) => service_callback(number),
        (Kind::Receiver, 0) => Some("onReceive"),
        (Kind::Runnable, 0) => Some("run"),
        (Kind::Receiver, _) => None,
        (Kind::Runnable, _) => None,
    }
}

/// The number of the callback of a name.
pub(crate) fn callback_number(kind: Kind, name: &str) -> Option<u8>
    ensures { result ≡ position (bytes_eq name.now) (callbacks_of kind) }
{
    match kind {
        Kind::Activity => activity_number(name),
        Kind::Service => service_number(name),
        Kind::Receiver if name == "onReceive" => Some(0),
        Kind::Runnable if name == "run" => Some(0),
        Kind::Receiver | Kind::Runnable => None,
    }
}

fn activity_number(name: &str) -> Option<u8>
    ensures { result ≡ position (bytes_eq name.now) activity_callbacks }
{
    match name {
        "onCreate" => Some(0),
        "onStart" => Some(1),
        "onResume" => Some(2),
        "onPause" => Some(3),
        "onStop" => Some(4),
        "onRestart" => Some(5),
        "onDestroy" => Some(6),
        _ => None,
    }
}

fn service_number(name: &str) -> Option<u8>
    ensures { result ≡ position (bytes_eq name.now) service_callbacks }
{
    match name {
        "onCreate" => Some(0),
        "onStartCommand" => Some(1),
        "onStart" => Some(2),
        "onBind" => Some(3),
        "onUnbind" => Some(4),
        "onRebind" => Some(5),
        "onDestroy" => Some(6),
        _ => None,
    }
}
