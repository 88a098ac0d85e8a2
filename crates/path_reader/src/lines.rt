//! The line that bytes spell.
ghost use Rattle.std.specs.Prelude.{◌≡◌, ◌∷◌, IfOk, option_copied, option_map};
ghost use Rattle.path_reader.specs.Reading.{body_in, front_in, front_of, head_in, head_of, last_in, last_of, left_by, line_at, line_in, view_in, view_of};

use crate::fields::{colon_row, is_thrown, next, row, row_or_dash, small, status, three_of};
use crate::steps::steps;
use crate::ways::way;
use report_path::{BodyPath, By, ViewStep};
use std::alloc::{AllocError, Global};
use std::marker::Model;

/// The head of a report: its number, and how many there are.
#[derive(Clone, Copy)]
pub struct Head {
    pub number: u32,
    pub total: u32,
}

/// What stands before the steps of a body.
#[derive(Clone, Copy)]
pub struct Front {
    pub number: u32,
    pub method: u32,
    pub entry: u8,
    pub thrown: bool,
    pub exit: u8,
}

/// A body by its number.
#[derive(Drop)]
pub struct NumberedBody {
    pub number: u32,
    pub body: BodyPath,
}

impl Model for NumberedBody {
    ghost use Rattle.path_reader.specs.Parts.{BodyNo};
    ghost use Rattle.path_reader.specs.Texts.{body_parts};

    ghost Value = { BodyNo };

    ghost view = { λ b. record { number = b.number; body = body_parts b.body } };
}

/// A view by its number.
#[derive(Clone, Copy)]
pub struct NumberedView {
    pub number: u32,
    pub view: ViewStep,
}

/// The last step of a report.
#[derive(Clone, Copy)]
pub struct Last {
    pub component: u32,
    pub edge: u32,
    pub status: u8,
    pub view: u32,
    pub body: Option<u32>,
    pub lock: u32,
}

/// A line of a report.
#[derive(Drop)]
pub enum Line {
    Head(Head),
    Body(NumberedBody),
    View(NumberedView),
    Exit(Last),
}

#[tactic(auto, unfolding(crate::specs::Reading::front_of))]
fn front_from(number: &[u8], method: &[u8], entry: &[u8], end: &[u8], exit: &[u8]) -> Option<Front>
    ensures { result ≡ front_of number.now method.now entry.now end.now exit.now }
{
    let number = row(number)?;
    let method = row(method)?;
    let entry = status(entry)?;
    let thrown = is_thrown(end)?;
    let exit = status(exit)?;
    Some(Front {
        number,
        method,
        entry,
        thrown,
        exit,
    })
}

#[tactic(auto, unfolding(crate::specs::Reading::front_in))]
fn front_under(rest: Option<&[u8]>) -> Option<(Front, Option<&[u8]>)>
    ensures { option_map (λ x. (x.0, left_by 32 (option_copied x.1))) result ≡ front_in (left_by 32 (option_copied rest.entry)) }
{
    let (number, rest) = next(rest, b' ')?;
    let (method, rest) = next(rest, b' ')?;
    let (entry, rest) = next(rest, b' ')?;
    let (end, rest) = next(rest, b' ')?;
    let (exit, rest) = next(rest, b' ')?;
    let front = front_from(number, method, entry, end, exit)?;
    Some((front, rest))
}

#[tactic(auto, unfolding(crate::specs::Reading::body_in))]
fn body_under(alloc: Global, rest: Option<&[u8]>) -> Result<Option<NumberedBody>, AllocError>
    ensures { IfOk result (λ o. o ≡ body_in (left_by 32 (option_copied rest.entry))) }
{
    let Some((front, rest)) = front_under(rest) else {
        return Ok(None);
    };
    match steps(alloc, rest)? {
        None => Ok(None),
        Some(steps) => Ok(Some(NumberedBody {
            number: front.number,
            body: BodyPath {
                method: front.method,
                entry: front.entry,
                thrown: front.thrown,
                exit: front.exit,
                steps,
            },
        })),
    }
}

#[tactic(auto, unfolding(crate::specs::Reading::view_of))]
fn view_from(
    number: &[u8],
    component: &[u8],
    state: &[u8],
    name: &[u8],
    by: By,
) -> Option<NumberedView>
    ensures { result ≡ view_of number.now component.now state.now name.now by }
{
    let number = row(number)?;
    let component = row(component)?;
    let state = small(state)?;
    let status = status(name)?;
    Some(NumberedView {
        number,
        view: ViewStep {
            component,
            state,
            status,
            by,
        },
    })
}

#[tactic(auto, unfolding(crate::specs::Reading::view_in))]
fn view_under(rest: Option<&[u8]>) -> Option<NumberedView>
    ensures { result ≡ view_in (left_by 32 (option_copied rest.entry)) }
{
    let (number, rest) = next(rest, b' ')?;
    let (component, rest) = next(rest, b' ')?;
    let (state, rest) = next(rest, b' ')?;
    let (name, rest) = next(rest, b' ')?;
    let by = way(rest)?;
    view_from(number, component, state, name, by)
}

#[tactic(auto, unfolding(crate::specs::Reading::last_of))]
fn last_from(
    component: &[u8],
    edge: &[u8],
    name: &[u8],
    view: &[u8],
    body: &[u8],
    lock: &[u8],
) -> Option<Last>
    ensures { result ≡ last_of component.now edge.now name.now view.now body.now lock.now }
{
    let component = row(component)?;
    let edge = row(edge)?;
    let status = status(name)?;
    let view = row(view)?;
    let body = row_or_dash(body)?;
    let lock = row(lock)?;
    Some(Last {
        component,
        edge,
        status,
        view,
        body,
        lock,
    })
}

#[tactic(auto, unfolding(crate::specs::Reading::last_in))]
fn last_under(rest: Option<&[u8]>) -> Option<Last>
    ensures { result ≡ last_in (left_by 32 (option_copied rest.entry)) }
{
    let (component, rest) = next(rest, b' ')?;
    let (edge, rest) = next(rest, b' ')?;
    let (name, rest) = next(rest, b' ')?;
    let (view, body, lock) = three_of(rest)?;
    last_from(component, edge, name, view, body, lock)
}

#[tactic(auto, unfolding(crate::specs::Reading::head_of))]
fn head_from(number: &[u8], of: &[u8], total: &[u8]) -> Option<Head>
    ensures { result ≡ head_of number.now of.now total.now }
{
    if of != b"of".as_slice() {
        return None;
    }
    let number = row(number)?;
    let total = colon_row(total)?;
    Some(Head { number, total })
}

// Of a head what stands behind the colon and a space is passed over.
#[tactic(auto, unfolding(crate::specs::Reading::head_in))]
fn head_under(rest: Option<&[u8]>) -> Option<Head>
    ensures { result ≡ head_in (left_by 32 (option_copied rest.entry)) }
{
    let (number, rest) = next(rest, b' ')?;
    let (of, rest) = next(rest, b' ')?;
    let (total, rest) = next(rest, b' ')?;
    match next(rest, b' ') {
        None => None,
        Some(_) => head_from(number, of, total),
    }
}

#[tactic(auto, unfolding(crate::specs::Reading::line_in))]
fn line_under(alloc: Global, word: &[u8], rest: Option<&[u8]>) -> Result<Option<Line>, AllocError>
    ensures { IfOk result (λ o. o ≡ line_in (word.now ∷ left_by 32 (option_copied rest.entry))) }
{
    if word == b"body".as_slice() {
        return Ok(body_under(alloc, rest)?.map(Line::Body));
    }
    if word == b"view".as_slice() {
        return Ok(view_under(rest).map(Line::View));
    }
    if word == b"exit".as_slice() {
        return Ok(last_under(rest).map(Line::Exit));
    }
    if word == b"report".as_slice() {
        return Ok(head_under(rest).map(Line::Head));
    }
    Ok(None)
}

/// The line that bytes spell, if they spell one.
#[tactic(auto, unfolding(crate::specs::Reading::line_at, crate::specs::Reading::line_in))]
pub fn line_of(alloc: Global, bytes: &[u8]) -> Result<Option<Line>, AllocError>
    ensures { IfOk result (λ o. o ≡ line_at bytes.now) }
{
    match next(Some(bytes), b' ') {
        None => Ok(None),
        Some((word, rest)) => line_under(alloc, word, rest),
    }
}
