//! Cells of one row of a method that are joined into those of another one.
ghost use Rattle.std.specs.Prelude.{ℕ, ◌≡◌, ◌≢◌, ◌<◌, ◌≤◌, ◌+◌, length, slice_index, true};
ghost use Rattle.app_model.specs.TagTable.{cell_count, tag_of};
ghost use Rattle.app_model.specs.declared.tag.Tag.{Tag};
ghost use Rattle.act_model.specs.Tags.{IsJoin, at_most_any};
ghost use Rattle.tag_rows.specs.Changes.{is_plain};
ghost use Rattle.tag_rows.specs.Runs.{AreCells, AreJoined, IsClear, JoinsIn, RunIn};

use crate::change::Kept;

// The cells of Any and Mixed, and the first ones of the tags that name a lock field or a site.
const ANY: u16 = 3;

const MIXED: u16 = 4;

const NAMED: u16 = 5;

const FIELD: u16 = 69;

/// Two rows of one method, by the places of their first cells, and what flows from the first to the second as it is.
#[derive(Clone, Copy)]
pub struct Pair {
    pub from: usize,
    pub to: usize,
    pub width: usize,
    pub kept: Kept,
}

/// The register where a run ended, and whether it changed a cell.
#[derive(Clone, Copy)]
pub struct Run {
    pub end: usize,
    pub changed: bool,
}

// Whether the tag of a cell names no lock field and no site.
#[tactic(auto, using(crate::proofs::Plain::plain_tag))]
fn is_plain_cell(cell: u16) -> bool
    ensures { result ≡ true → is_plain (tag_of cell) ≡ true }
{
    cell < NAMED
}

// Whether a register that is none of the two flows as it is.
fn is_kept(kept: Kept, cell: u16) -> bool
    ensures { result ≡ true → kept.plain ≡ true → is_plain (tag_of cell) ≡ true }
{
    !kept.plain || is_plain_cell(cell)
}

// Whether the tag of a cell is Any, or below it.
#[tactic(auto, using(crate::proofs::Plain::low_cell, crate::proofs::Plain::mixed_cell, crate::proofs::Plain::named_cell))]
fn is_at_most_any(cell: u16) -> bool
    ensures { result ≡ at_most_any (tag_of cell) }
{
    if cell < MIXED {
        return true;
    }
    if cell < NAMED {
        return false;
    }
    cell < FIELD
}

// The cell of the least tag above those of two cells that differ, and of which none is that of Bot.
fn join_others(a: u16, b: u16) -> u16
    requires differ { tag_of a ≢ tag_of b }
    requires left { tag_of a ≢ Tag.Bot }
    requires right { tag_of b ≢ Tag.Bot }
    ensures joins { IsJoin (tag_of a) (tag_of b) (tag_of result) }
    ensures fits { result < cell_count }
{
    if !is_at_most_any(a) {
        return MIXED;
    }
    if !is_at_most_any(b) {
        return MIXED;
    }
    ANY
}

// Cells that differ, none of Bot.
fn raise(cells: &mut [u16], place: usize, cell: u16) -> bool
    requires place { place < length cells.old }
    requires fits { cell < cell_count }
    requires differ { cell ≢ slice_index cells.old place }
    requires before { slice_index cells.old place ≢ 0 }
    requires cell { cell ≢ 0 }
    requires cells { AreCells cells.old }
    ensures joins { JoinsIn cells.old place (tag_of cell) cells.new result }
    ensures cells { AreCells cells.new }
    ensures len { length cells.new ≡ length cells.old }
{
    let before = cells[place];
    let joined = join_others(before, cell);
    if joined == before {
        return false;
    }
    cells[place] = joined;
    true
}

/// Joins the tag of a cell into another cell.
#[inline(always)]
pub(crate) fn join_cell(cells: &mut [u16], place: usize, cell: u16) -> bool
    requires place { place < length cells.old }
    requires fits { cell < cell_count }
    requires cells { AreCells cells.old }
    ensures joins { JoinsIn cells.old place (tag_of cell) cells.new result }
    ensures cells { AreCells cells.new }
    ensures len { length cells.new ≡ length cells.old }
{
    let before = cells[place];
    if cell == before {
        return false;
    }
    if before == 0 {
        cells[place] = cell;
        return true;
    }
    if cell == 0 {
        return false;
    }
    raise(cells, place, cell)
}

// The first register from one on that is not kept, whatever its tag is.
fn next_odd(kept: Kept, start: usize, width: usize) -> usize
    requires { start ≤ width }
    ensures end { result ≤ width }
    ensures later { start ≤ result }
    ensures clear { IsClear kept start result }
{
    let mut end = width;
    if start <= kept.first && kept.first < end {
        end = kept.first;
    }
    if start <= kept.second && kept.second < end {
        end = kept.second;
    }
    end
}

// Whether no tag of registers in a range of a row names a lock field or a site.
fn are_plain(cells: &[u16], from: usize, start: usize, end: usize) -> bool
    requires { from + end ≤ length cells.now }
    ensures { result ≡ true → (r : ℕ) → start ≤ r → r < end → is_plain (tag_of (slice_index cells.now (from + r))) ≡ true }
{
    let mut plain = true;
    for register in start..end {
        plain &= is_plain_cell(cells[from + register]);
    }
    plain
}

// Whether two rows have the same cells in a range of registers.
fn are_equal(cells: &[u16], pair: &Pair, start: usize, end: usize) -> bool
    requires from { pair.now.from + end ≤ length cells.now }
    requires to { pair.now.to + end ≤ length cells.now }
    requires start { start ≤ end }
    ensures { result ≡ true → (r : ℕ) → start ≤ r → r < end → slice_index cells.now (pair.now.from + r) ≡ slice_index cells.now (pair.now.to + r) }
{
    let Pair { from, to, .. } = *pair;
    cells[from + start..from + end] == cells[to + start..to + end]
}

// Whether registers in a range flow as they are, and have done so.
fn are_joined(cells: &[u16], pair: &Pair, start: usize, end: usize) -> bool
    requires from { pair.now.from + end ≤ length cells.now }
    requires to { pair.now.to + end ≤ length cells.now }
    requires start { start ≤ end }
    requires clear { IsClear pair.now.kept start end }
    ensures { result ≡ true → AreJoined pair.now start end cells.now }
{
    if !are_equal(cells, pair, start, end) {
        return false;
    }
    !pair.kept.plain || are_plain(cells, pair.from, start, end)
}

// The same of registers that the change touches by their tags alone, one by one.
fn join_cells(cells: &mut [u16], pair: &Pair, start: usize, end: usize) -> Run
    requires from { pair.now.from + pair.now.width ≤ length cells.old }
    requires to { pair.now.to + pair.now.width ≤ length cells.old }
    requires start { start ≤ end }
    requires end { end ≤ pair.now.width }
    requires clear { IsClear pair.now.kept start end }
    requires cells { AreCells cells.old }
    ensures run { RunIn pair.now start cells.old result.end cells.new result.changed }
    ensures end { result.end ≤ pair.now.width }
    ensures later { start ≤ result.end }
    ensures cells { AreCells cells.new }
    ensures len { length cells.new ≡ length cells.old }
{
    let Pair { from, to, kept, .. } = *pair;
    let mut changed = false;
    for register in start..end {
        let cell = cells[from + register];
        if !is_kept(kept, cell) {
            return Run {
                end: register,
                changed,
            };
        }
        changed |= join_cell(cells, to + register, cell);
    }
    Run { end, changed }
}

/// Joins the cells of registers from a first one on, up to one that does not flow as it is.
pub(crate) fn join_run(cells: &mut [u16], pair: &Pair, start: usize) -> Run
    requires from { pair.now.from + pair.now.width ≤ length cells.old }
    requires to { pair.now.to + pair.now.width ≤ length cells.old }
    requires start { start ≤ pair.now.width }
    requires cells { AreCells cells.old }
    ensures run { RunIn pair.now start cells.old result.end cells.new result.changed }
    ensures end { result.end ≤ pair.now.width }
    ensures later { start ≤ result.end }
    ensures cells { AreCells cells.new }
    ensures len { length cells.new ≡ length cells.old }
{
    let end = next_odd(pair.kept, start, pair.width);
    if are_joined(cells, pair, start, end) {
        return Run {
            end,
            changed: false,
        };
    }
    join_cells(cells, pair, start, end)
}
