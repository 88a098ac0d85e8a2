//! The edges of each kind's lifecycle.
ghost use Rattle.std.specs.Prelude.{◌≡◌, length, slice_get, true};
ghost use Rattle.app_model.specs.Components.{activity_edges, creating, edge, edges_of, service_edges};

use app_model::{Edge, Kind};

fn to_next(from: u8, callback: u8, to: u8) -> Edge
    ensures { result ≡ edge from callback to }
{
    Edge {
        from,
        to,
        callback,
        creates: false,
    }
}

fn to_created(from: u8, callback: u8, to: u8) -> Edge
    ensures { result ≡ creating from callback to }
{
    Edge {
        from,
        to,
        callback,
        creates: true,
    }
}

fn activity_edge(number: u32) -> Option<Edge>
    ensures { result ≡ slice_get activity_edges number }
{
    Some(match number {
        0 => to_created(0, 0, 1),
        1 => to_next(1, 1, 2),
        2 => to_next(1, 6, 0),
        3 => to_next(2, 2, 3),
        4 => to_next(2, 4, 5),
        5 => to_next(3, 3, 4),
        6 => to_next(4, 2, 3),
        7 => to_next(4, 4, 5),
        8 => to_next(5, 5, 6),
        9 => to_next(5, 6, 0),
        10 => to_next(6, 1, 2),
        _ => return None,
    })
}

fn service_edge(number: u32) -> Option<Edge>
    ensures { result ≡ slice_get service_edges number }
{
    Some(match number {
        0 => to_created(0, 0, 1),
        1 => to_next(1, 1, 1),
        2 => to_next(1, 2, 1),
        3 => to_next(1, 3, 1),
        4 => to_next(1, 4, 1),
        5 => to_next(1, 5, 1),
        6 => to_next(1, 6, 0),
        _ => return None,
    })
}

/// How many edges the lifecycle of a kind has.
pub fn edge_count(kind: Kind) -> u32
    ensures { result ≡ length (edges_of kind) }
{
    match kind {
        Kind::Activity => 11,
        Kind::Service => 7,
        Kind::Receiver => 1,
        Kind::Runnable => 1,
    }
}

/// An edge of the lifecycle of a kind, from 0; none from the count on.
pub fn edge(kind: Kind, number: u32) -> Option<Edge>
    ensures { result ≡ slice_get (edges_of kind) number }
{
    match (kind, number) {
        (Kind::Activity, _) => activity_edge(number),
        (Kind::Service, _) => service_edge(number),
        (Kind::Receiver, 0) => Some(to_created(0, 0, 0)),
        (Kind::Runnable, 0) => Some(to_next(0, 0, 0)),
        (Kind::Receiver, _) => None,
        (Kind::Runnable, _) => None,
    }
}
