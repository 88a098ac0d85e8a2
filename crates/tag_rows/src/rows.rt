//! The cells of methods while a table is made, row by row.
ghost use Rattle.std.specs.Prelude.{ℕ, ◌≡◌, ◌<◌, ◌+◌, ◌*◌, ◌≤◌, ◌^◌, ◌↔◌, [], IsTrue, length, map, slice_index_or, true};
ghost use Rattle.flow_model.specs.TagFlow.{IsLive};
ghost use Rattle.act_model.specs.Changes.{tag_in};
ghost use Rattle.app_model.specs.TagTable.{HasCell, IsTagTable, cell_at, cell_count, row_at, tag_of, width_at, with_cell};
ghost use Rattle.tag_rows.specs.Cells.{Joins, cells_len, tag_there};
ghost use Rattle.tag_rows.specs.Runs.{Runs};

use crate::runs::{Pair, Run, join_cell, join_run};
use act_model::Row;
use app_model::{Tag, TagTable};
use ns_base::MethodNo;
use std::marker::Model;

// The cell of Zero.
const ZERO: u16 = 1;

/// The cells of each method, as a table of tags has them.
#[derive(Drop)]
pub struct Rows {
    registers: Vec<u32>,
    cells: Vec<Vec<u16>>,
}

impl Model for Rows {
    ghost use Rattle.app_model.specs.TagTable.{TagParts, IsTagTable};
    ghost use Rattle.std.specs.Prelude.{map};

    ghost Value = { TagParts };

    ghost view = { λ t. record { registers = t.registers.items; cells = map (λ v. v.items) t.cells.items } };

    ghost invariant = { λ t. IsTagTable (record { registers = t.registers.items; cells = map (λ v. v.items) t.cells.items }) };
}

impl Rows {
    /// Both have an entry for each method.
    pub fn new(registers: Vec<u32>, cells: Vec<Vec<u16>>) -> Rows
        requires { IsTagTable (record { registers = registers.items; cells = map (λ v. v.items) cells.items }) }
        ensures { result ≡ record { registers = registers.items; cells = map (λ v. v.items) cells.items } }
    {
        Rows { registers, cells }
    }

    pub fn into_table(self) -> TagTable
        ensures { result ≡ self }
    {
        TagTable::new(self.registers, self.cells)
    }

    /// How many cells a row of a method has.
    pub fn width(&self, method: MethodNo) -> usize
        ensures width { result ≡ width_at self.now method.0 }
        ensures limit { result ≤ 2 ^ 32 }
    {
        self.registers(method) as usize + 1
    }

    fn registers(&self, method: MethodNo) -> u32
        ensures { result + 1 ≡ width_at self.now method.0 }
    {
        match self.registers.get(method.0 as usize) {
            Some(registers) => *registers,
            None => 0,
        }
    }

    /// The cell at a place of a method's cells; that of Bot past the end.
    #[tactic(auto, unfolding(app_model::specs::TagTable::cell_at))]
    pub fn cell(&self, method: MethodNo, place: usize) -> u16
        ensures cell { result ≡ cell_at self.now method.0 place }
        ensures fits { result < cell_count }
    {
        match self.cells.get(method.0 as usize) {
            Some(cells) => cells.get(place).copied().unwrap_or(0),
            None => 0,
        }
    }

    /// The tag at a place of a method's cells.
    pub fn tag(&self, method: MethodNo, place: usize) -> Tag
        ensures tag { result ≡ tag_there self.now method.0 place }
        ensures fits { HasCell result }
    {
        Tag::of_cell(self.cell(method, place))
    }

    /// The row of an instruction, by the place of its first cell and how many cells it has.
    pub fn row(&self, method: MethodNo, start: usize, width: usize) -> RowAt<'_>
        requires within { start + width ≤ cells_len self.now method.0 }
        requires some { 0 < width }
        ensures { (index : ℕ) → width ≡ width_at self.now method.0 → start ≡ index * width → map tag_of result.cells.now ≡ row_at self.now method.0 index }
    {
        RowAt {
            cells: &self.cells[method.0 as usize][start..start + width],
        }
    }

    /// Joins a tag into a cell, and tells whether the cell changed.
    pub fn join(&mut self, method: MethodNo, place: usize, tag: Tag) -> bool
        requires place { place < cells_len self.old method.0 }
        requires tag { HasCell tag }
        ensures { Joins self.old method.0 place tag self.new result }
    {
        join_cell(
            self.cells[method.0 as usize].as_mut_slice(),
            place,
            tag.cell(),
        )
    }

    /// Joins the tags of registers from a first one on, up to one that does not flow as it is.
    pub fn join_run(&mut self, method: MethodNo, pair: &Pair, start: usize) -> Run
        requires from { pair.now.from + pair.now.width ≤ cells_len self.old method.0 }
        requires to { pair.now.to + pair.now.width ≤ cells_len self.old method.0 }
        requires some { 0 < pair.now.width }
        requires start { start ≤ pair.now.width }
        ensures runs { Runs pair.now method.0 start self.old result.end self.new result.changed }
        ensures end { result.end ≤ pair.now.width }
        ensures later { start ≤ result.end }
    {
        join_run(self.cells[method.0 as usize].as_mut_slice(), pair, start)
    }
}

/// The tags before an instruction, by its cells.
#[derive(Clone, Copy)]
pub struct RowAt<'a> {
    pub cells: &'a [u16],
}

impl Row for RowAt<'_> {
    ghost use Rattle.app_model.specs.TagTable.{tag_of};
    ghost use Rattle.std.specs.Prelude.{map};

    ghost tags = { λ at. map tag_of at.cells.now };

    fn tag(&self, register: usize) -> Tag {
        match self.cells.get(register) {
            Some(cell) => Tag::of_cell(*cell),
            None => Tag::Bot,
        }
    }

    fn cells(&self) -> usize {
        self.cells.len()
    }
}

impl RowAt<'_> {
    /// Whether so many first registers are all Zero.
    pub fn starts_zero(&self, count: usize) -> bool
        requires { count ≤ length self.now.cells.now }
        ensures { result ≡ true → (r : ℕ) → r < count → tag_in (map tag_of self.now.cells.now) r ≡ Tag.Zero }
    {
        let cells = self.cells;
        let mut zero = true;
        for register in 0..count {
            zero &= cells[register] == ZERO;
        }
        zero
    }

    /// Whether something flows from there.
    pub fn is_live(&self) -> bool
        ensures { IsTrue result ↔ IsLive (map tag_of self.now.cells.now) }
    {
        let cells = self.cells;
        for register in 0..cells.len() {
            if cells[register] != 0 {
                return true;
            }
        }
        false
    }
}
