//! The code of a method by the numbers of the application.
ghost use Rattle.std.specs.Prelude.{◌≡◌, map, IfOk};
ghost use Rattle.dalvik.specs.Naming.{naming_of};
ghost use Rattle.app_rows.specs.Linked.{linked_ins, linked_place, linked_body, operand_of, operands_of};

use crate::numbers::number_at;
use crate::rows::FileRows;
use app_model::Operand;
use dalvik::{Body, Ins, Naming, Place};
use dex_file::FileCode;
use std::alloc::{AllocError, Global};

#[tactic(auto, unfolding(crate::specs::Linked::linked_ins))]
fn linked_ins(rows: &FileRows, ins: Ins) -> Ins
    ensures { result ≡ linked_ins rows.now ins }
{
    match ins.named() {
        Naming::Kind(kind) => ins.with_kind(number_at(&rows.types, kind)),
        _ => ins,
    }
}

fn link_place(rows: &FileRows, place: &mut Place)
    ensures { place.new ≡ linked_place rows.now place.old }
{
    place.ins = linked_ins(rows, place.ins);
}

fn link_places(rows: &FileRows, places: &mut Vec<Place>)
    ensures { places.new.items ≡ map (linked_place rows.now) places.old.items }
{
    for place in places.iter_mut() {
        link_place(rows, place);
    }
}

/// The code of a method, moved; no places without code.
pub fn link_body(alloc: Global, rows: &FileRows, code: Option<FileCode>) -> Body
    ensures { result ≡ linked_body rows.now code }
{
    match code {
        Some(code) => {
            let registers = code.body.registers();
            let mut places = code.body.into_places();
            link_places(rows, &mut places);
            Body::new(registers, places)
        }
        None => Body::new(0, Vec::new(alloc)),
    }
}

fn operand_of(rows: &FileRows, named: Naming) -> Operand
    ensures { result ≡ operand_of rows.now named }
{
    match named {
        Naming::Field(field) => Operand::Access(rows.field(field)),
        Naming::Method(method) => Operand::Invoke(rows.method(method)),
        _ => Operand::Plain,
    }
}

fn operands_in(alloc: Global, rows: &FileRows, body: &Body) -> Result<Vec<Operand>, AllocError>
    ensures { IfOk result (λ operands. operands.items ≡ map (λ place. operand_of rows.now (naming_of place.ins)) body.now.places) }
{
    let mut operands = Vec::with_capacity(alloc, body.len())?;
    for i in 0..body.len() {
        let place = body.place(i);
        operands.push(operand_of(rows, place.ins.named()))?;
    }
    Ok(operands)
}

/// What the instructions of a method name.
pub fn find_operands(
    alloc: Global,
    rows: &FileRows,
    code: &Option<FileCode>,
) -> Result<Vec<Operand>, AllocError>
    ensures { IfOk result (λ operands. operands.items ≡ operands_of rows.now code.now) }
{
    match code {
        Some(code) => operands_in(alloc, rows, &code.body),
        None => Ok(Vec::new(alloc)),
    }
}
