//! The control flow of a method.
ghost use Rattle.std.specs.Prelude.{◌≡◌, ◌<◌, ◌≤◌, ◌+◌, ◌≢◌, ℕ, [], ◌∷◌, ◌++◌, Ok, Err, None, length, slice_index_or, IfOk, IfErr};
ghost use Rattle.std.specs.List.{AllPairs};
ghost use Rattle.dalvik.specs.Body.{IsBody};
ghost use Rattle.dex_tables.specs.Content.{AreTablesOf};
ghost use Rattle.dex_tables.specs.Rows.{method_count};
ghost use Rattle.method_graph.specs.Exact.{IsExact, IsPutBehind};
ghost use Rattle.dalvik_decode.specs.declared.faults.CodeFault.TheVariants.{Memory};
ghost use Rattle.method_graph.specs.Graph.{IsCodeIn, body_of, graph_by, graph_of, is_static, pc_of, place_at, places_of, with_target};
ghost use Rattle.method_graph.specs.declared.sweep.Row.{Row};
ghost use Rattle.method_graph.specs.Operands.{AreSums};
ghost use Rattle.method_graph.specs.Sweep.{IsSweep};
ghost use Rattle.method_graph.specs.Tries.{AreTries, IsPast, bad_target, try_at};

use crate::flow::find_successors;
use crate::operands::{ParamSums, find_arguments, fits_args, past_operand};
use crate::registers::past_named;
use crate::sweep::{Found, Piece, Row, Sweep, sweep_units};
use crate::tries::{advance, find_bad_target, find_handlers, find_try, leaves_from, take_handlers};
use dalvik::{Body, Ins, Place, access};
use dalvik_decode::CodeFault;
use dex_code::{CodeItem, TryRow};
use dex_tables::Tables;
use std::alloc::{AllocError, Global};

/// An instruction with its successors and its possible handlers, or its first fault.
#[tactic(auto, unfolding(crate::specs::Graph::place_at))]
fn make_place(
    alloc: Global,
    bytes: &[u8],
    tables: &Tables,
    code: &CodeItem,
    sweep: &Sweep,
    sums: &mut ParamSums,
    row: Option<TryRow>,
    pc: u32,
    next: u32,
    ins: Ins,
) -> Result<Place, CodeFault>
    requires tables { AreTablesOf bytes.now tables.now }
    requires tries { AreTries bytes.now code.now.tries code.now.handlers }
    requires units { sweep.now.units ≡ length code.now.units }
    requires covered { row ≡ try_at code.now.tries pc }
    requires sums { AreSums bytes.now sums.old }
    ensures place { IsExact result (place_at bytes.now code.now sweep.now.rows pc next ins) }
    ensures sums { AreSums bytes.now sums.new }
{
    if let Some(register) = past_named(code.registers, ins) {
        return Err(CodeFault::Register(pc, register));
    }
    if let Some(index) = past_operand(bytes, tables, ins) {
        return Err(CodeFault::Operand(pc, index));
    }
    if !fits_args(bytes, tables, sums, ins)? {
        return Err(CodeFault::ArgCount(pc));
    }
    let successors = find_successors(alloc, code.units.as_slice(), sweep, pc, next, ins)?;
    let caught = take_handlers(code.handlers.as_slice(), row);
    let handlers = find_handlers(alloc, bytes, tables, sweep, caught)?;
    let leaves = leaves_from(bytes, tables, caught);
    Ok(Place {
        pc,
        ins,
        successors,
        handlers,
        leaves,
    })
}

fn push_place(places: &mut Vec<Place>, place: Place) -> Result<(), AllocError>
    ensures { IfOk result (λ _. places.new.items ≡ places.old.items ++ place ∷ []) }
{
    places.push(place)?;
    Ok(())
}

/// Puts the place of a row behind the others, where the row is an instruction.
fn put_row(
    alloc: Global,
    bytes: &[u8],
    tables: &Tables,
    code: &CodeItem,
    sweep: &Sweep,
    sums: &mut ParamSums,
    covering: Option<TryRow>,
    row: Row,
    places: &mut Vec<Place>,
) -> Result<(), CodeFault>
    requires tables { AreTablesOf bytes.now tables.now }
    requires tries { AreTries bytes.now code.now.tries code.now.handlers }
    requires units { sweep.now.units ≡ length code.now.units }
    requires covered { covering ≡ try_at code.now.tries row.pc }
    requires sums { AreSums bytes.now sums.old }
    ensures put { IsPutBehind result places.old.items places.new.items (places_of bytes.now code.now sweep.now.rows (row ∷ [])) }
    ensures sums { AreSums bytes.now sums.new }
{
    match row.piece {
        Piece::Whole { ins, next } => {
            let place = make_place(
                alloc, bytes, tables, code, sweep, sums, covering, row.pc, next, ins,
            )?;
            push_place(places, place)?;
            Ok(())
        }
        Piece::Payload { .. } => Ok(()),
        Piece::Broken { fault } => Err(fault),
    }
}

fn nth_row(rows: &[Row], k: usize) -> Row
    requires { k < length rows.now }
    ensures { (d : Row) → slice_index_or rows.now k d ≡ result }
{
    rows[k]
}

/// The places of all instructions.
fn make_places(
    alloc: Global,
    bytes: &[u8],
    tables: &Tables,
    code: &CodeItem,
    sweep: &Sweep,
    sums: &mut ParamSums,
) -> Result<Vec<Place>, CodeFault>
    requires tables { AreTablesOf bytes.now tables.now }
    requires tries { AreTries bytes.now code.now.tries code.now.handlers }
    requires units { sweep.now.units ≡ length code.now.units }
    requires rising { AllPairs (λ a b. a.pc < b.pc) sweep.now.rows }
    requires sums { AreSums bytes.now sums.old }
    ensures places { IfOk result (λ places. places_of bytes.now code.now sweep.now.rows sweep.now.rows ≡ Ok places.items) }
    ensures fault { IfErr result (λ fault. fault ≢ Memory → places_of bytes.now code.now sweep.now.rows sweep.now.rows ≡ Err fault) }
    ensures sums { AreSums bytes.now sums.new }
{
    let rows = sweep.rows();
    let mut places = Vec::with_capacity(alloc, rows.len())?;
    let mut at = 0;
    for k in 0..rows.len() {
        let row = nth_row(rows, k);
        at = advance(code.tries.as_slice(), at, row.pc);
        let covering = find_try(code.tries.as_slice(), at, row.pc);
        put_row(
            alloc,
            bytes,
            tables,
            code,
            sweep,
            sums,
            covering,
            row,
            &mut places,
        )?;
    }
    Ok(places)
}

/// The pc of a fault.
fn place_of_fault(fault: CodeFault) -> u32
    ensures { result ≡ pc_of fault }
{
    match fault {
        CodeFault::BadOpcode(pc, _)
        | CodeFault::Truncated(pc)
        | CodeFault::BadPayload(pc)
        | CodeFault::Register(pc, _)
        | CodeFault::Operand(pc, _)
        | CodeFault::ArgCount(pc)
        | CodeFault::Target(pc, _)
        | CodeFault::FallsOff(pc)
        | CodeFault::TryTarget(pc)
        | CodeFault::PayloadKind(pc) => pc,
        CodeFault::InsSize | CodeFault::Memory => 0,
    }
}

/// The first of a handler's target that is at fault and another fault.
fn first_fault(target: Option<u32>, fault: CodeFault) -> CodeFault
    ensures { with_target target (Err fault) ≡ Err result }
{
    match target {
        Some(target) if target < place_of_fault(fault) => CodeFault::TryTarget(target),
        _ => fault,
    }
}

/// The body of all instructions, or the first fault.
fn make_body(
    alloc: Global,
    bytes: &[u8],
    tables: &Tables,
    code: &CodeItem,
    sweep: &Sweep,
    sums: &mut ParamSums,
) -> Result<Body, CodeFault>
    requires tables { AreTablesOf bytes.now tables.now }
    requires tries { AreTries bytes.now code.now.tries code.now.handlers }
    requires sweep { IsSweep sweep.now code.now.units }
    requires size { length code.now.units ≤ 4194304 }
    requires handlers { length code.now.handlers ≤ 4194304 }
    requires sums { AreSums bytes.now sums.old }
    ensures body { IsExact result (body_of code.now.registers (with_target (bad_target sweep.now.rows None code.now.handlers) (places_of bytes.now code.now sweep.now.rows sweep.now.rows))) }
    ensures sums { AreSums bytes.now sums.new }
{
    let target = find_bad_target(sweep, code.handlers.as_slice());
    let places = match make_places(alloc, bytes, tables, code, sweep, sums) {
        Ok(places) => places,
        Err(fault) => return Err(first_fault(target, fault)),
    };
    match target {
        Some(target) => Err(CodeFault::TryTarget(target)),
        None => Ok(Body::new(code.registers, places)),
    }
}

/// The body of a method with these access flags. The first fault is given: by pc, and at one pc in the
/// order of `CodeFault`. A handler's target is the pc of its own fault, and `InsSize` comes before all.
pub fn build_graph(
    alloc: Global,
    bytes: &[u8],
    tables: &Tables,
    method: u32,
    flags: u32,
    code: &CodeItem,
) -> Result<Body, CodeFault>
    requires tables { AreTablesOf bytes.now tables.now }
    requires code { IsCodeIn bytes.now code.now }
    requires len { length bytes.now ≤ 4294967295 }
    requires row { method < method_count bytes.now }
    ensures { IsExact result (graph_of bytes.now method flags code.now) }
{
    let mut sums = ParamSums::new(alloc);
    build_graph_with(alloc, bytes, tables, &mut sums, method, flags, code)
}

/// The same for one of many methods of a file, which share what was summed of their prototypes.
#[tactic(auto, unfolding(crate::specs::Graph::graph_by))]
pub fn build_graph_with(
    alloc: Global,
    bytes: &[u8],
    tables: &Tables,
    sums: &mut ParamSums,
    method: u32,
    flags: u32,
    code: &CodeItem,
) -> Result<Body, CodeFault>
    requires tables { AreTablesOf bytes.now tables.now }
    requires code { IsCodeIn bytes.now code.now }
    requires len { length bytes.now ≤ 4294967295 }
    requires row { method < method_count bytes.now }
    requires sums { AreSums bytes.now sums.old }
    ensures graph { IsExact result (graph_of bytes.now method flags code.now) }
    ensures sums { AreSums bytes.now sums.new }
{
    let arguments = find_arguments(bytes, tables, sums, flags & access::STATIC != 0, method)?;
    if code.ins as u64 != arguments {
        return Err(CodeFault::InsSize);
    }
    let sweep = sweep_units(alloc, code.units.as_slice())?;
    let Found::Start(_) = sweep.find(0) else {
        return Err(CodeFault::FallsOff(0));
    };
    make_body(alloc, bytes, tables, code, &sweep, sums)
}
