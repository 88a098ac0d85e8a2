//! Rows of a certificate, sought by what they tell of. In rows that rise the search goes by halves, else it walks them all.
ghost use Rattle.std.specs.Prelude.{◌≡◌, ◌↔◌, ◌<◌, ◌≤◌, ◌+◌, ◌*◌, ◌&&◌, ℕ, true, length, IsTrue};
ghost use Rattle.app_model.specs.Masks.{in_mask};
ghost use Rattle.cert_facts.specs.Rows.{Rises, IsFrom, HasState, HasEntry, view_rank, body_rank, mask_of};
ghost use Rattle.cert_facts.specs.Sets.{view_has, body_has, is_of_state, is_of_entry};

use crate::which::Which;
use certificate::{BodyRow, ViewRow};
use std::slice::from_ref;

/// The number by which rows in the order of the text rise.
pub trait Ranked {
    ghost use Rattle.std.specs.Prelude.{ℕ};

    ghost number: { Self → ℕ };

    fn rank(&self) -> u64
        ensures { result ≡ number self.now };
}

impl Ranked for ViewRow {
    ghost number = { λ row. view_rank row };

    fn rank(&self) -> u64 {
        rank_of(self.component, self.state)
    }
}

impl Ranked for BodyRow {
    ghost number = { λ row. body_rank row };

    fn rank(&self) -> u64 {
        rank_of(self.method, self.entry)
    }
}

fn rank_of(first: u32, second: u8) -> u64
    ensures { result ≡ 256 * first + second }
{
    256 * u64::from(first) + u64::from(second)
}

/// Whether each row has a higher rank than the one before.
pub fn is_rising<R: Ranked>(rows: &[R]) -> bool
    ensures { IsTrue result ↔ Rises R.number rows.now }
{
    for k in 1..rows.len() {
        if rows[k].rank() <= rows[k - 1].rank() {
            return false;
        }
    }
    true
}

// The first place from which on no rank is below the bound, by halves.
fn first_from<R: Ranked>(rows: &[R], bound: u64) -> usize
    requires { Rises R.number rows.now }
    ensures { IsFrom R.number bound rows.now result }
{
    let mut low = 0;
    let mut high = rows.len();
    while low < high {
        let middle = low + (high - low) / 2;
        if rows[middle].rank() < bound {
            low = middle + 1;
        } else {
            high = middle;
        }
    }
    low
}

/// The rows among which are those of a component in a state.
pub fn rows_of_state(rows: &[ViewRow], rising: bool, component: u32, state: u8) -> &[ViewRow]
    requires { rising ≡ true → Rises view_rank rows.now }
    ensures { HasState rows.now result.now component state }
{
    if !rising {
        return rows;
    }
    let place = first_from(rows, rank_of(component, state));
    if place < rows.len() {
        from_ref(&rows[place])
    } else {
        &[]
    }
}

/// The rows among which are those of a method that was entered at a status.
pub fn rows_of_entry(rows: &[BodyRow], rising: bool, method: u32, entry: u8) -> &[BodyRow]
    requires { rising ≡ true → Rises body_rank rows.now }
    ensures { HasEntry rows.now result.now method entry }
{
    if !rising {
        return rows;
    }
    let place = first_from(rows, rank_of(method, entry));
    if place < rows.len() {
        from_ref(&rows[place])
    } else {
        &[]
    }
}

fn view_part(row: &ViewRow, component: u32, state: u8) -> u8
    ensures { (s : ℕ) → in_mask result s ≡ (is_of_state component state row.now && in_mask row.now.mask s) }
{
    if row.component == component && row.state == state {
        row.mask
    } else {
        0
    }
}

/// The statuses that rows have of a component in a state.
pub fn view_mask(rows: &[ViewRow], component: u32, state: u8) -> u8
    ensures { (s : ℕ) → in_mask result s ≡ view_has rows.now component state s }
{
    let mut mask = 0;
    for row in rows {
        mask |= view_part(row, component, state);
    }
    mask
}

fn mask_in(row: &BodyRow, which: Which) -> u8
    ensures { result ≡ mask_of which row.now }
{
    match which {
        Which::Before(index) => row.masks.get(index as usize).copied().unwrap_or(0),
        Which::Returned => row.ret,
        Which::Thrown => row.exc,
    }
}

fn body_part(row: &BodyRow, method: u32, entry: u8, which: Which) -> u8
    ensures { (s : ℕ) → in_mask result s ≡ (is_of_entry method entry row.now && in_mask (mask_of which row.now) s) }
{
    if row.method == method && row.entry == entry {
        mask_in(row, which)
    } else {
        0
    }
}

/// The statuses that rows have of a method that was entered at a status.
pub fn body_mask(rows: &[BodyRow], method: u32, entry: u8, which: Which) -> u8
    ensures { (s : ℕ) → in_mask result s ≡ body_has (mask_of which) rows.now method entry s }
{
    let mut mask = 0;
    for row in rows {
        mask |= body_part(row, method, entry, which);
    }
    mask
}
