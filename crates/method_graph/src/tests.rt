ghost use Rattle.std.specs.Prelude.{◌<◌, ◌^◌, length};

mod graphs;
mod sample;

use crate::flow::find_successors;
use crate::registers::past_named;
use crate::sweep::sweep_units;
use dalvik::{Args, Few, Ins, Place};
use dalvik_decode::{CodeFault, decode_at};
use std::alloc::Global;
use std::test::Fail;

/// The successors of the instruction at a pc.
fn successors(alloc: Global, units: &[u16], pc: u32) -> Result<Few, CodeFault>
    requires start { pc < length units.now }
    requires size { length units.now < 2 ^ 32 }
{
    let sweep = sweep_units(alloc, units)?;
    let (ins, next) = decode_at(units, pc)?;
    find_successors(alloc, units, &sweep, pc, next, ins)
}

/// Whether a list has these numbers.
fn has(few: &Few, numbers: &[u32]) -> bool {
    let mut same = few.len() == numbers.len();
    for (k, number) in numbers.iter().enumerate() {
        same = same && few.get(k) == Some(*number);
    }
    same
}

#[test]
fn control_goes_to_the_next_instruction_and_then_to_the_targets(
    rt: HostRuntime,
) -> Result<(), Fail> {
    let alloc = rt.alloc();
    assert!(rt; has(&successors(alloc, &[0x0000, 0x000e], 0)?, &[1]));
    assert!(rt; has(&successors(alloc, &[0x0000, 0x000e], 1)?, &[]));
    assert!(rt; has(&successors(alloc, &[0x0000, 0xff28], 1)?, &[0]));
    assert!(rt; has(&successors(alloc, &[0x0038, 2, 0x000e], 0)?, &[1, 1]));
    let switch = [0x002b, 4, 0, 0x000e, 0x0100, 2, 0, 0, 0, 0, 3, 0];
    assert!(rt; has(&successors(alloc, &switch, 0)?, &[1, 0, 1]));
    let switch = [0x002c, 4, 0, 0x000e, 0x0200, 2, 0, 0, 1, 0, 3, 0, 3, 0];
    assert!(rt; has(&successors(alloc, &switch, 0)?, &[1, 1, 1]));
    let before_data = [0x000e, 0x0000, 0x0300, 1, 0, 0];
    assert!(rt; has(&successors(alloc, &before_data, 1)?, &[]));
    Ok(())
}

#[test]
fn refuses_control_that_leads_to_no_instruction(rt: HostRuntime) -> Result<(), Fail> {
    let alloc = rt.alloc();
    let middle = successors(alloc, &[0x0038, 1, 0x000e], 0);
    assert!(rt; matches!(middle, Err(CodeFault::Target(0, 1))));
    let before = successors(alloc, &[0xff28], 0);
    assert!(rt; matches!(before, Err(CodeFault::Target(0, 4_294_967_295))));
    let payload = successors(alloc, &[0x0228, 0x000e, 0x0300, 1, 0, 0], 0);
    assert!(rt; matches!(payload, Err(CodeFault::Target(0, 2))));
    let end = successors(alloc, &[0x000e, 0x0000], 1);
    assert!(rt; matches!(end, Err(CodeFault::FallsOff(1))));
    let data = successors(alloc, &[0x0012, 0x0300, 1, 0, 0], 0);
    assert!(rt; matches!(data, Err(CodeFault::FallsOff(0))));
    let kind = successors(alloc, &[0x002c, 4, 0, 0x000e, 0x0100, 0, 0, 0], 0);
    assert!(rt; matches!(kind, Err(CodeFault::PayloadKind(0))));
    let array = successors(alloc, &[0x0026, 3, 0, 0x000e], 0);
    assert!(rt; matches!(array, Err(CodeFault::PayloadKind(0))));
    Ok(())
}

#[test]
fn names_the_first_register_past_the_end(rt: HostRuntime) {
    let pair = Ins::Const {
        op: 0x16,
        to: 0,
        value: 0,
    };
    assert_eq!(rt; past_named(1, pair), Some(1));
    assert_eq!(rt; past_named(2, pair), None);
    assert_eq!(rt; past_named(0, pair), Some(0));
    let moved = Ins::Move {
        op: 0x04,
        to: 0,
        from: 1,
    };
    assert_eq!(rt; past_named(2, moved), Some(2));
    let read = Ins::Return { op: 0x10, from: 1 };
    assert_eq!(rt; past_named(2, read), None);
    let args = Args::Range { first: 3, count: 3 };
    let call = Ins::Invoke {
        op: 0x74,
        method: 0,
        args,
    };
    assert_eq!(rt; past_named(5, call), Some(5));
    assert_eq!(rt; past_named(6, call), None);
}

#[test]
fn a_place_is_small(rt: HostRuntime) {
    assert!(rt; std::mem::size_of::<Few>() <= 16);
    assert!(rt; std::mem::size_of::<Place>() <= 88);
}
