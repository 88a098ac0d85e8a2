//! The linear sweep over the code units.
ghost use Rattle.std.specs.Prelude.{◌≡◌, ◌≤◌, ◌<◌, ◌+◌, ◌∷◌, ◌++◌, [], ◌^◌, ◌⊎◌, length, IfOk, IfSome, OnOk, unwrap_or};
ghost use Rattle.method_graph.specs.declared.sweep.Found.TheVariants.{Nothing};
ghost use Rattle.method_graph.specs.Sweep.{IsSweep, is_ident, next_of, piece_at, row_at, found_at, sweep_of, stands, instructions_in};

use dalvik::Ins;
use dalvik_decode::{CodeFault, decode_at, ident, payload_len};
use std::alloc::{AllocError, Global};
use std::marker::Model;

/// What begins at a place of the code units.
#[derive(Clone, Copy)]
pub enum Piece {
    /// An instruction, and the place after it.
    Whole { ins: Ins, next: u32 },
    /// A payload, with its first unit and the place after it.
    Payload { ident: u16, next: u32 },
    /// Neither of the two.
    Broken { fault: CodeFault },
}

/// A place that the sweep comes to, with what begins there.
#[derive(Clone, Copy)]
pub struct Row {
    pub pc: u32,
    pub piece: Piece,
}

/// What the sweep says of a pc.
#[derive(Clone, Copy)]
pub enum Found {
    /// Nothing begins there.
    Nothing,
    /// The instruction of this index.
    Start(u32),
    /// A payload, with its first unit.
    Payload(u16),
}

/// What a sweep came to.
#[derive(Drop)]
pub struct Sweep {
    rows: Vec<Row>,
    found: Vec<Found>,
    instructions: u32,
    reached: u32,
}

impl Model for Sweep {
    ghost use Rattle.std.specs.Prelude.{vec_len};
    ghost use Rattle.method_graph.specs.Sweep.{SweepRows, IsSound};

    ghost Value = { SweepRows };

    ghost view = { λ s. record { rows = s.rows.items; units = vec_len s.found; reached = s.reached } };

    ghost invariant = { λ s. IsSound s.found.items s.rows.items s.instructions s.reached };
}

fn begins_payload(unit: u16) -> bool
    ensures { result ≡ is_ident unit }
{
    unit == ident::PACKED_SWITCH_PAYLOAD
        || unit == ident::SPARSE_SWITCH_PAYLOAD
        || unit == ident::FILL_ARRAY_DATA_PAYLOAD
}

/// What begins at a pc.
#[tactic(auto, unfolding(crate::specs::Sweep::piece_at))]
fn read_piece(units: &[u16], pc: u32) -> Piece
    requires start { pc < length units.now }
    requires size { length units.now < 2 ^ 32 }
    ensures piece { result ≡ piece_at units.now pc }
    ensures next { IfSome (next_of result) (λ next. (pc < next) × (next ≤ length units.now)) }
{
    let ident = units[pc as usize];
    if !begins_payload(ident) {
        return match decode_at(units, pc) {
            Ok((ins, next)) => Piece::Whole { ins, next },
            Err(fault) => Piece::Broken { fault },
        };
    }
    match payload_len(units, pc) {
        Some(count) if pc as u64 + count <= units.len() as u64 => Piece::Payload {
            ident,
            next: pc + count as u32,
        },
        _ => Piece::Broken {
            fault: CodeFault::BadPayload(pc),
        },
    }
}

/// The place after a piece, where the sweep goes on.
fn place_after(piece: Piece) -> Option<u32>
    ensures { result ≡ next_of piece }
{
    match piece {
        Piece::Whole { next, .. } | Piece::Payload { next, .. } => Some(next),
        Piece::Broken { .. } => None,
    }
}

/// What a piece behind so many instructions is for the table.
fn what_stands(instructions: u32, piece: Piece) -> Found
    ensures { result ≡ stands instructions piece }
{
    match piece {
        Piece::Payload { ident, .. } => Found::Payload(ident),
        Piece::Whole { .. } | Piece::Broken { .. } => Found::Start(instructions),
    }
}

fn instructions_of(piece: Piece) -> u32
    ensures count { result ≡ instructions_in piece }
    ensures one { result ≤ 1 }
{
    match piece {
        Piece::Payload { .. } => 0,
        Piece::Whole { .. } | Piece::Broken { .. } => 1,
    }
}

impl Sweep {
    /// The rows, in order of their pcs.
    pub fn rows(&self) -> &[Row]
        ensures { result.now ≡ self.now.rows }
    {
        self.rows.as_slice()
    }

    /// What stands at a pc.
    pub fn find(&self, pc: u32) -> Found
        ensures found { result ≡ found_at self.now.rows pc }
        ensures within { (result ≡ Nothing) ⊎ (pc < self.now.units) }
    {
        self.found
            .get(pc as usize)
            .copied()
            .unwrap_or(Found::Nothing)
    }

    /// Before the first row.
    fn new(alloc: Global, units: usize) -> Result<Sweep, AllocError>
        ensures { IfOk result (λ sweep. sweep ≡ record { rows = []; units = units; reached = 0 }) }
    {
        let mut found = Vec::new(alloc);
        found.resize(units, Found::Nothing)?;
        Ok(Sweep {
            rows: Vec::new(alloc),
            found,
            instructions: 0,
            reached: 0,
        })
    }

    /// Notes what begins at the next pc.
    fn note(&mut self, row: Row, reached: u32) -> Result<(), AllocError>
        requires place { self.old.reached ≤ row.pc }
        requires within { row.pc < self.old.units }
        requires further { row.pc < reached }
        ensures noted { OnOk result (self.new ≡ record { rows = self.old.rows ++ row ∷ []; units = self.old.units; reached = reached }) }
    {
        self.rows.push(row)?;
        self.found[row.pc as usize] = what_stands(self.instructions, row.piece);
        self.instructions += instructions_of(row.piece);
        self.reached = reached;
        Ok(())
    }

    /// Notes what begins at a pc, and gives the place where the sweep goes on.
    fn step(&mut self, units: &[u16], pc: u32) -> Result<Option<u32>, AllocError>
        requires start { pc < length units.now }
        requires size { length units.now < 2 ^ 32 }
        requires place { self.old.reached ≤ pc }
        requires units { self.old.units ≡ length units.now }
        ensures next { IfOk result (λ next. next ≡ next_of (piece_at units.now pc)) }
        ensures bounds { IfOk result (λ next. IfSome next (λ next. (pc < next) × (next ≤ length units.now))) }
        ensures rows { OnOk result (self.new.rows ≡ self.old.rows ++ row_at units.now pc ∷ []) }
        ensures count { OnOk result (self.new.units ≡ self.old.units) }
        ensures reached { OnOk result (self.new.reached ≡ unwrap_or (next_of (piece_at units.now pc)) (pc + 1)) }
    {
        let piece = read_piece(units, pc);
        let next = place_after(piece);
        self.note(Row { pc, piece }, next.unwrap_or(pc + 1))?;
        Ok(next)
    }
}

/// The sweep over all units.
pub fn sweep_units(alloc: Global, units: &[u16]) -> Result<Sweep, AllocError>
    requires { length units.now < 2 ^ 32 }
    ensures { IfOk result (λ sweep. IsSweep sweep units.now) }
{
    let mut sweep = Sweep::new(alloc, units.len())?;
    let mut pc = 0;
    while (pc as usize) < units.len() {
        match sweep.step(units, pc)? {
            Some(next) => pc = next,
            None => return Ok(sweep),
        }
    }
    Ok(sweep)
}
