//! The way to a view.
ghost use Rattle.std.specs.Prelude.{◌≡◌, option_copied};
ghost use Rattle.path_reader.specs.Reading.{left_by, other_in, outside_in, own_in, start_in, way_in};

use crate::fields::{four_of, next, row, row_or_dash, three_of, two_of};
use report_path::By;

#[tactic(auto, unfolding(crate::specs::Reading::start_in))]
fn start(rest: Option<&[u8]>) -> Option<By>
    ensures { result ≡ start_in (left_by 32 (option_copied rest.entry)) }
{
    match next(rest, b' ') {
        None => Some(By::Start),
        Some(_) => None,
    }
}

#[tactic(auto, unfolding(crate::specs::Reading::outside_in))]
fn outside(rest: Option<&[u8]>) -> Option<By>
    ensures { result ≡ outside_in (left_by 32 (option_copied rest.entry)) }
{
    let (view, edge) = two_of(rest, b' ')?;
    let view = row(view)?;
    let edge = row(edge)?;
    Some(By::Outside { view, edge })
}

#[tactic(auto, unfolding(crate::specs::Reading::own_in))]
fn own(rest: Option<&[u8]>) -> Option<By>
    ensures { result ≡ own_in (left_by 32 (option_copied rest.entry)) }
{
    let (view, edge, body) = three_of(rest)?;
    let view = row(view)?;
    let edge = row(edge)?;
    let body = row(body)?;
    Some(By::Own { view, edge, body })
}

#[tactic(auto, unfolding(crate::specs::Reading::other_in))]
fn other(rest: Option<&[u8]>) -> Option<By>
    ensures { result ≡ other_in (left_by 32 (option_copied rest.entry)) }
{
    let (view, mover, edge, body) = four_of(rest)?;
    let view = row(view)?;
    let mover = row(mover)?;
    let edge = row(edge)?;
    let body = row_or_dash(body)?;
    Some(By::Other {
        view,
        mover,
        edge,
        body,
    })
}

/// The way that all fields of the rest spell.
#[tactic(auto, unfolding(crate::specs::Reading::way_in))]
pub fn way(rest: Option<&[u8]>) -> Option<By>
    ensures { result ≡ way_in (left_by 32 (option_copied rest.entry)) }
{
    let (word, rest) = next(rest, b' ')?;
    if word == b"start".as_slice() {
        return start(rest);
    }
    if word == b"outside".as_slice() {
        return outside(rest);
    }
    if word == b"own".as_slice() {
        return own(rest);
    }
    if word == b"other".as_slice() {
        return other(rest);
    }
    None
}
