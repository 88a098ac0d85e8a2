//! What is known of each register before each instruction.
ghost use Rattle.std.specs.Prelude.{◌≡◌, ◌<◌, ◌+◌, [], length, map, slice_index_or, ◌≤◌, ◌^◌};
ghost use Rattle.app_model.specs.TagTable.{IsTagTable, HasCell, cell_count, tag_of, cell_of, cell_at, width_at, tag_at, with_cell};

use crate::tag::Tag;
use ns_base::{LockNo, MethodNo};
use std::marker::Model;

// The first cells of the tags with a number; those before them are one each.
const HELD: u16 = 5;

const FIELD: u16 = 69;

const NEW: u16 = 133;

// The tags without a number, by cell.
const PLAIN: [Tag; 5] = [Tag::Bot, Tag::Zero, Tag::Solid, Tag::Any, Tag::Mixed];

impl Tag {
    /// The tag of a cell of a tag table.
    #[tactic(auto, using(crate::proofs::Cells::cell_again, crate::proofs::Cells::has_cell), unfolding(crate::specs::TagTable::tag_of))]
    pub fn of_cell(cell: u16) -> Tag
        ensures tag { result ≡ tag_of cell }
        ensures back { cell < cell_count → cell_of result ≡ cell }
        ensures fits { cell < cell_count → HasCell result }
    {
        if cell < HELD {
            PLAIN[cell as usize]
        } else if cell < FIELD {
            Tag::Held(LockNo((cell - HELD) as u32))
        } else if cell < NEW {
            Tag::Field(LockNo((cell - FIELD) as u32))
        } else {
            Tag::New((cell - NEW) as u32)
        }
    }

    /// The cell of a tag.
    #[tactic(auto, using(crate::proofs::Cells::tag_again))]
    pub fn cell(self) -> u16
        requires { HasCell self }
        ensures cell { result ≡ cell_of self }
        ensures back { tag_of result ≡ self }
    {
        match self {
            Tag::Bot => 0,
            Tag::Zero => 1,
            Tag::Solid => 2,
            Tag::Any => 3,
            Tag::Mixed => 4,
            Tag::Held(lock) => HELD + lock.0 as u16,
            Tag::Field(lock) => FIELD + lock.0 as u16,
            Tag::New(site) => NEW + site as u16,
        }
    }
}

/// The tags of an application's registers, instruction by instruction.
#[derive(Drop)]
pub struct TagTable {
    registers: Vec<u32>,
    cells: Vec<Vec<u16>>,
}

impl Model for TagTable {
    ghost use Rattle.app_model.specs.TagTable.{TagParts, IsTagTable};
    ghost use Rattle.std.specs.Prelude.{map};

    ghost Value = { TagParts };

    ghost view = { λ t. record { registers = t.registers.items; cells = map (λ v. v.items) t.cells.items } };

    ghost invariant = { λ t. IsTagTable (record { registers = t.registers.items; cells = map (λ v. v.items) t.cells.items }) };
}

impl TagTable {
    /// Both have an entry for each method. `cells` is empty for one that is not reached; else the cell
    /// of instruction i and register r is at place `i * (registers + 1) + r`, and register number
    /// `registers` is the result cell. Takes no memory.
    pub fn new(registers: Vec<u32>, cells: Vec<Vec<u16>>) -> TagTable
        requires { IsTagTable (record { registers = registers.items; cells = map (λ v. v.items) cells.items }) }
        ensures { result ≡ record { registers = registers.items; cells = map (λ v. v.items) cells.items } }
    {
        TagTable { registers, cells }
    }

    /// What is known of a register before an instruction; `Bot` in a method that is not reached.
    #[tactic(auto, using(crate::proofs::Cells::tag_within, crate::proofs::Cells::tag_past))]
    pub fn tag(&self, method: MethodNo, index: u32, register: u32) -> Tag
        ensures tag { result ≡ tag_at self.now method.0 index register }
        ensures fits { HasCell result }
    {
        let registers = self.registers(method);
        if register > registers {
            return Tag::Bot;
        }
        let place = index as usize * (registers as usize + 1) + register as usize;
        Tag::of_cell(self.cell(method, place))
    }

    /// The cells of a method, row by row: the tag of each is that of `Tag::of_cell`. None in a method that is not reached.
    pub fn cells(&self, method: MethodNo) -> &[u16]
        ensures { result.now ≡ slice_index_or self.now.cells method.0 [] }
    {
        match self.cells.get(method.0 as usize) {
            Some(cells) => cells,
            None => &[],
        }
    }

    /// Puts a tag into the cell at a place of a method's cells.
    #[tactic(auto, unfolding(crate::specs::TagTable::with_cell))]
    pub fn put(&mut self, method: MethodNo, place: usize, tag: Tag)
        requires place { place < length (slice_index_or self.old.cells method.0 []) }
        requires fits { HasCell tag }
        ensures { self.new ≡ with_cell self.old method.0 place (cell_of tag) }
    {
        self.cells[method.0 as usize][place] = tag.cell();
    }

    /// How many cells a row of a method has: one for each register, and the result cell.
    pub fn width(&self, method: MethodNo) -> usize
        ensures width { result ≡ width_at self.now method.0 }
        ensures limit { result ≤ 2 ^ 32 }
    {
        self.registers(method) as usize + 1
    }

    // The number of a method's registers.
    fn registers(&self, method: MethodNo) -> u32
        ensures { result + 1 ≡ width_at self.now method.0 }
    {
        match self.registers.get(method.0 as usize) {
            Some(registers) => *registers,
            None => 0,
        }
    }

    #[tactic(auto, unfolding(crate::specs::TagTable::cell_at))]
    fn cell(&self, method: MethodNo, place: usize) -> u16
        ensures cell { result ≡ cell_at self.now method.0 place }
        ensures fits { result < cell_count }
    {
        match self.cells.get(method.0 as usize) {
            Some(cells) => cells.get(place).copied().unwrap_or(0),
            None => 0,
        }
    }
}
