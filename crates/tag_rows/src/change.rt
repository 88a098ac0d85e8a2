//! What flows from an instruction, as a change of the row before it.
ghost use Rattle.std.specs.Prelude.{ℕ, ◌≡◌, ◌<◌, ◌+◌, ◌^◌, length, true, false};
ghost use Rattle.act_model.specs.Changes.{call_change, is_pair, tag_in};
ghost use Rattle.app_model.specs.declared.tag.Tag.{Tag as AnyTag};
ghost use Rattle.tag_rows.specs.Changes.{Keeps, changed, is_plain};
ghost use Rattle.tag_rows.specs.declared.change.Change.TheVariants as variants;

use act_model::{Act, Row, Written, tag_after, tag_called, tag_thrown};
use app_model::{LockUse, Tag};

/// What flows to a successor or a handler.
#[derive(Clone, Copy)]
pub enum Change {
    /// The row after an act; after a call, where it leads outside.
    After { site: u32, act: Act },
    /// The row where an act threw.
    Thrown { act: Act },
    /// The row past a call of methods whose reach stores to the lock fields of a mask, without what they answer.
    Past { gone: u64 },
    /// The row where a call of such methods threw.
    Out { gone: u64 },
}

/// Two cells of a row; all others are kept, or where `plain` is set those with a plain tag.
#[derive(Clone, Copy)]
pub struct Kept {
    pub first: usize,
    pub second: usize,
    pub plain: bool,
}

/// The tag that a change leaves in a cell.
pub fn change_tag<R: Row>(row: &R, change: &Change, cell: usize) -> Tag
    requires { cell < length (R.tags row.now) }
    ensures { result ≡ tag_in (changed change.now (R.tags row.now)) cell }
{
    match *change {
        Change::After { site, act } => tag_after(row, site, &act, cell),
        Change::Thrown { act } => tag_thrown(row, &act, cell),
        Change::Past { gone } => past_cell(row, gone, cell),
        Change::Out { gone } => tag_called(gone, row.tag(cell)),
    }
}

fn past_cell<R: Row>(row: &R, gone: u64, cell: usize) -> Tag
    requires { cell < length (R.tags row.now) }
    ensures { result ≡ tag_in (changed (variants.Past gone) (R.tags row.now)) cell }
{
    if cell == row.cells() - 1 {
        Tag::Bot
    } else {
        tag_called(gone, row.tag(cell))
    }
}

/// The cells that a change may touch.
pub fn kept_by(change: &Change, width: usize) -> Kept
    requires { 0 < width }
    ensures { Keeps change.now width result }
{
    match *change {
        Change::After { act, .. } => kept_after(&act, width),
        Change::Thrown { act } => kept_thrown(&act, width),
        Change::Past { .. } | Change::Out { .. } => plain_but(width - 1),
    }
}

fn kept_after(act: &Act, width: usize) -> Kept
    requires { 0 < width }
    ensures { (site : ℕ) → Keeps (variants.After site act.now) width result }
{
    match *act {
        Act::Copy { to, wide, .. } => kept_put(to as usize, wide),
        Act::Write { to, written, .. } => kept_put(to as usize, is_pair(written)),
        Act::TakeResult { to } | Act::ReadSlot { to, .. } => all_but(to as usize),
        Act::WriteSlot { from, .. } => plain_but(from as usize),
        Act::Call { usage, .. } => kept_call(usage, width - 1),
        Act::Fill { .. } => all_but(width - 1),
        Act::Go
        | Act::Test { .. }
        | Act::Give { .. }
        | Act::Check { .. }
        | Act::Throw { .. }
        | Act::Return { .. } => all_but(width),
    }
}

fn kept_thrown(act: &Act, width: usize) -> Kept
    requires { 0 < width }
    ensures { Keeps (variants.Thrown act.now) width result }
{
    match *act {
        Act::Call { usage, .. } => kept_call(usage, width - 1),
        _ => all_but(width),
    }
}

fn is_pair(written: Written) -> bool
    ensures { result ≡ is_pair written }
{
    matches!(written, Written::Pair)
}

// One register is written, or it and the next one.
fn kept_put(to: usize, wide: bool) -> Kept
    requires { to < 2 ^ 32 }
    ensures first { result.first ≡ to }
    ensures second { wide ≡ true → result.second ≡ to + 1 }
    ensures plain { result.plain ≡ false }
{
    let second = if wide { to + 1 } else { to };
    Kept {
        first: to,
        second,
        plain: false,
    }
}

// The result cell; a lock call may change each tag that is not plain.
fn kept_call(usage: LockUse, last: usize) -> Kept
    ensures cell { result.first ≡ last }
    ensures tags { (receiver tag : AnyTag) → (result.plain ≡ true → is_plain tag ≡ true) → call_change usage receiver tag ≡ tag }
{
    match usage {
        LockUse::Acquire | LockUse::Release => plain_but(last),
        LockUse::Plain | LockUse::Make | LockUse::IsHeld | LockUse::Mode | LockUse::Wrong => {
            all_but(last)
        }
    }
}

fn all_but(cell: usize) -> Kept
    ensures first { result.first ≡ cell }
    ensures second { result.second ≡ cell }
    ensures plain { result.plain ≡ false }
{
    Kept {
        first: cell,
        second: cell,
        plain: false,
    }
}

fn plain_but(cell: usize) -> Kept
    ensures first { result.first ≡ cell }
    ensures second { result.second ≡ cell }
    ensures plain { result.plain ≡ true }
{
    Kept {
        first: cell,
        second: cell,
        plain: true,
    }
}
