//! Where control goes from an instruction.
ghost use Rattle.std.specs.Prelude.{◌≡◌, ◌<◌, ◌∷◌, [], ◌^◌, length, pos, slice_index_or, Some, Ok, IfOk, IfErr};
ghost use Rattle.method_graph.specs.Exact.{IsExact, IsPutBehind};
ghost use Rattle.method_graph.specs.Flow.{flow_of, front_of, goes_on, has_payload, index_to, indices_at, put_first, is_payload, is_start, offsets_in, offsets_of, successors_at, table_ident, target_of};
ghost use Rattle.method_graph.specs.Sweep.{found_at, sweep_of};
ghost use Rattle.dalvik_decode.specs.Payloads.{content_at, content_of};
ghost use Rattle.dalvik_decode.specs.declared.faults.CodeFault.TheVariants.{Memory};

use crate::sweep::{Found, Sweep};
use dalvik::{Few, Ins, opcode};
use dalvik_decode::{CodeFault, Payload, ident, read_payload};
use std::alloc::Global;

/// How control leaves an instruction.
#[derive(Clone, Copy)]
pub enum Flow {
    /// To the next instruction.
    Next,
    /// To the next instruction, unless a payload stands there.
    Pause,
    /// Out of the method.
    End,
    /// To the offset.
    Jump { offset: i32 },
    /// To the next instruction or the offset.
    Branch { offset: i32 },
    /// To the next instruction or the targets in the payload at the offset, which begins with this unit.
    Select { ident: u16, offset: i32 },
    /// To the next instruction; the data of an array is at the offset.
    Fill { offset: i32 },
}

fn flow_from(ins: Ins) -> Flow
    ensures { result ≡ flow_of ins }
{
    match ins {
        Ins::Nop => Flow::Pause,
        Ins::ReturnVoid | Ins::Return { .. } | Ins::Throw { .. } => Flow::End,
        Ins::Goto { offset, .. } => Flow::Jump { offset },
        Ins::IfPair { offset, .. } | Ins::IfZero { offset, .. } => Flow::Branch { offset },
        Ins::Switch { op, offset, .. } => Flow::Select {
            ident: table_unit(op),
            offset,
        },
        Ins::FillArrayData { offset, .. } => Flow::Fill { offset },
        _ => Flow::Next,
    }
}

/// The first unit of a switch's table.
fn table_unit(op: u8) -> u16
    ensures { result ≡ table_ident op }
{
    if op == opcode::PACKED_SWITCH {
        ident::PACKED_SWITCH_PAYLOAD
    } else {
        ident::SPARSE_SWITCH_PAYLOAD
    }
}

/// Whether control goes on to the next place.
fn flows_on(flow: Flow, next: Found) -> bool
    ensures { result ≡ goes_on flow next }
{
    match flow {
        Flow::End | Flow::Jump { .. } => false,
        Flow::Pause => !matches!(next, Found::Payload(_)),
        _ => true,
    }
}

fn starts(found: Found) -> bool
    ensures { result ≡ is_start found }
{
    matches!(found, Found::Start(_))
}

/// Whether a payload with this first unit stands there.
fn is_data(ident: u16, found: Found) -> bool
    ensures { result ≡ is_payload ident found }
{
    match found {
        Found::Payload(first) => first == ident,
        _ => false,
    }
}

/// Whether the payload that the instruction names is there.
fn finds_payload(sweep: &Sweep, pc: u32, flow: Flow) -> bool
    ensures { result ≡ has_payload sweep.now.rows pc flow }
{
    match flow {
        Flow::Select { ident, offset } => is_data(
            ident,
            sweep.find(pc.wrapping_add_signed(offset)),
        ),
        Flow::Fill { offset } => is_data(
            ident::FILL_ARRAY_DATA_PAYLOAD,
            sweep.find(pc.wrapping_add_signed(offset)),
        ),
        _ => true,
    }
}

/// The pc at offset `k` of a list.
fn target_at(pc: u32, offsets: &[i32], k: usize) -> u32
    requires { k < length offsets.now }
    ensures { result ≡ target_of pc (slice_index_or offsets.now k (pos 0)) }
{
    pc.wrapping_add_signed(offsets[k])
}

/// Puts the index of the instruction at the target behind the others.
fn put_one(
    alloc: Global,
    sweep: &Sweep,
    pc: u32,
    target: u32,
    successors: &mut Few,
) -> Result<(), CodeFault>
    ensures { IsPutBehind result successors.old successors.new (put_first (index_to sweep.now.rows pc target) (Ok [])) }
{
    let Found::Start(index) = sweep.find(target) else {
        return Err(CodeFault::Target(pc, target));
    };
    successors.push(alloc, index)?;
    Ok(())
}

fn put_all(
    alloc: Global,
    sweep: &Sweep,
    pc: u32,
    offsets: &[i32],
    successors: &mut Few,
) -> Result<(), CodeFault>
    ensures { IsPutBehind result successors.old successors.new (indices_at sweep.now.rows pc offsets.now) }
{
    for k in 0..offsets.len() {
        put_one(alloc, sweep, pc, target_at(pc, offsets, k), successors)?;
    }
    Ok(())
}

/// The offsets in a switch's payload.
fn take_offsets(alloc: Global, payload: Payload) -> Vec<i32>
    ensures { result.items ≡ offsets_in (Some (content_of payload)) }
{
    match payload {
        Payload::Packed {
            first: _first,
            targets,
        } => targets,
        Payload::Sparse {
            keys: _keys,
            targets,
        } => targets,
        Payload::Array { .. } => Vec::new(alloc),
    }
}

/// The offsets in the payload at a place, and none where no payload stands.
fn read_offsets(alloc: Global, units: &[u16], place: u32) -> Result<Vec<i32>, CodeFault>
    requires place { place < length units.now }
    ensures offsets { IfOk result (λ offsets. offsets.items ≡ offsets_in (content_at units.now place)) }
    ensures memory { IfErr result (λ fault. fault ≡ Memory) }
{
    match read_payload(alloc, units, place) {
        Ok(payload) => Ok(take_offsets(alloc, payload)),
        Err(CodeFault::BadPayload(_)) => Ok(Vec::new(alloc)),
        Err(_) => Err(CodeFault::Memory),
    }
}

/// Puts the targets of a branch or a switch.
fn put_targets(
    alloc: Global,
    units: &[u16],
    sweep: &Sweep,
    pc: u32,
    flow: Flow,
    successors: &mut Few,
) -> Result<(), CodeFault>
    requires units { sweep.now.units ≡ length units.now }
    ensures { IsPutBehind result successors.old successors.new (indices_at sweep.now.rows pc (offsets_of units.now sweep.now.rows pc flow)) }
{
    match flow {
        Flow::Jump { offset } => put_one(
            alloc,
            sweep,
            pc,
            pc.wrapping_add_signed(offset),
            successors,
        ),
        Flow::Branch { offset } => put_one(
            alloc,
            sweep,
            pc,
            pc.wrapping_add_signed(offset),
            successors,
        ),
        Flow::Select { ident, offset } => {
            let place = pc.wrapping_add_signed(offset);
            if is_data(ident, sweep.find(place)) {
                let offsets = read_offsets(alloc, units, place)?;
                put_all(alloc, sweep, pc, offsets.as_slice(), successors)
            } else {
                Ok(())
            }
        }
        _ => Ok(()),
    }
}

/// The next instruction, where control goes on to it.
fn front_from(alloc: Global, flow: Flow, next: Found) -> Result<Few, CodeFault>
    ensures { IsExact result (Ok (front_of flow next)) }
{
    let mut front = Few::new();
    if let Found::Start(index) = next
        && flows_on(flow, next)
    {
        front.push(alloc, index)?;
    }
    Ok(front)
}

/// The successors of the instruction at a pc, whose next place is `next`.
#[tactic(auto, unfolding(crate::specs::Flow::successors_at))]
pub fn find_successors(
    alloc: Global,
    units: &[u16],
    sweep: &Sweep,
    pc: u32,
    next: u32,
    ins: Ins,
) -> Result<Few, CodeFault>
    requires units { sweep.now.units ≡ length units.now }
    ensures { IsExact result (successors_at units.now sweep.now.rows pc next ins) }
{
    let flow = flow_from(ins);
    let ahead = sweep.find(next);
    let mut successors = front_from(alloc, flow, ahead)?;
    put_targets(alloc, units, sweep, pc, flow, &mut successors)?;
    if flows_on(flow, ahead) && !starts(ahead) {
        return Err(CodeFault::FallsOff(pc));
    }
    if !finds_payload(sweep, pc, flow) {
        return Err(CodeFault::PayloadKind(pc));
    }
    Ok(successors)
}
