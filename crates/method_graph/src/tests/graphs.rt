//! Whole graphs, and each fault once.
use super::has;
use super::sample::{Code, graph};
use dalvik::Place;
use dalvik_decode::CodeFault;
use std::alloc::Global;
use std::test::Fail;

// Takes the wake lock `wl`, runs `System.gc` in a try, and releases the lock.
const RECEIVER: [u16; 33] = [
    0x001a, 9, // 0: const-string v0
    0x206e, 1, 0x0004, // 2: getSystemService {v4, v0}
    0x000c, // 5: move-result-object v0
    0x001f, 8, // 6: check-cast v0
    0x1112, // 8: const/4 v1, 1
    0x021a, 15, // 9: const-string v2
    0x306e, 2, 0x0210, // 11: newWakeLock {v0, v1, v2}
    0x000c, // 14: move-result-object v0
    0x0069, 0, // 15: sput-object v0
    0x0062, 0, // 17: sget-object v0
    0x106e, 3, 0, // 19: acquire {v0}
    0x0071, 5, 0, // 22: gc
    0x0062, 0, // 25: sget-object v0
    0x106e, 4, 0, // 27: release {v0}
    0x000e, // 30: return-void
    0x000d, // 31: move-exception v0
    0x000e, // 32: return-void
];

// The graph of `onReceive`; its try of 3 units from 22 on stands in the tail, with its handlers.
const fn receiver(tail: &'static [u8]) -> Code {
    Code {
        registers: 6,
        ins: 3,
        tries: 1,
        units: &RECEIVER,
        tail,
    }
}

// The pc of an instruction, its successors, its handlers, and whether a throw can leave the method there.
type Row = (u32, &'static [u32], &'static [u32], bool);

fn is_row(place: &Place, row: &Row) -> bool {
    place.pc == row.0
        && has(&place.successors, row.1)
        && has(&place.handlers, row.2)
        && place.leaves == row.3
}

#[test]
fn a_throw_comes_to_the_handler_of_its_try(rt: HostRuntime) -> Result<(), Fail> {
    let rows: &[Row] = &[
        (0, &[1], &[], true),
        (2, &[2], &[], true),
        (5, &[3], &[], true),
        (6, &[4], &[], true),
        (8, &[5], &[], true),
        (9, &[6], &[], true),
        (11, &[7], &[], true),
        (14, &[8], &[], true),
        (15, &[9], &[], true),
        (17, &[10], &[], true),
        (19, &[11], &[], true),
        (22, &[12], &[15], true),
        (25, &[13], &[], true),
        (27, &[14], &[], true),
        (30, &[], &[], true),
        (31, &[16], &[], true),
        (32, &[], &[], true),
    ];
    let code = receiver(&[0, 0, 22, 0, 0, 0, 3, 0, 1, 0, 1, 1, 11, 31]);
    let body = graph(rt.alloc(), 0, 1, &code)?;
    assert_eq!(rt; (body.registers(), body.len()), (6, rows.len()));
    for (index, row) in rows.iter().enumerate() {
        assert!(rt;
            index < body.len() && is_row(body.place(index), row),
            "{index}"
        );
    }
    // none of these lists is on the heap
    let places = body.into_places();
    let taken = places.capacity().wrapping_mul(std::mem::size_of::<Place>());
    assert!(rt; taken <= places.len().wrapping_mul(96));
    Ok(())
}

// What is said of throws at `System.gc`.
fn caught(alloc: Global, tail: &'static [u8], handlers: &[u32], leaves: bool) -> bool {
    match graph(alloc, 0, 1, &receiver(tail)) {
        Ok(body) => {
            body.len() == 17
                && has(&body.place(11).handlers, handlers)
                && body.place(11).leaves == leaves
        }
        Err(_) => false,
    }
}

#[test]
fn no_throw_leaves_past_a_handler_of_all(rt: HostRuntime) {
    let cases: &[(&'static [u8], &[u32], bool)] = &[
        // Exception
        (&[0, 0, 22, 0, 0, 0, 3, 0, 1, 0, 1, 1, 11, 31], &[15], true),
        // all
        (&[0, 0, 22, 0, 0, 0, 3, 0, 1, 0, 1, 0, 31], &[15], false),
        // Exception, all
        (
            &[0, 0, 22, 0, 0, 0, 3, 0, 1, 0, 1, 0x7f, 11, 31, 32],
            &[15, 16],
            false,
        ),
        // Throwable, Exception
        (
            &[0, 0, 22, 0, 0, 0, 3, 0, 1, 0, 1, 2, 12, 31, 11, 32],
            &[15],
            false,
        ),
        // Exception, Throwable, all
        (
            &[0, 0, 22, 0, 0, 0, 3, 0, 1, 0, 1, 0x7e, 11, 32, 12, 31, 0],
            &[16, 15],
            false,
        ),
    ];
    for (tail, handlers, leaves) in cases {
        assert!(rt; caught(rt.alloc(), tail, handlers, *leaves), "{tail:?}");
    }
}

// The first fault of `System.gc` with this code, of three registers and no arguments.
fn fault_of(
    alloc: Global,
    units: &'static [u16],
    tries: u16,
    tail: &'static [u8],
) -> Option<CodeFault> {
    let code = Code {
        registers: 3,
        ins: 0,
        tries,
        units,
        tail,
    };
    graph(alloc, 5, 8, &code).err()
}

#[test]
fn the_first_fault_of_code_is_named(rt: HostRuntime) {
    let cases: &[(&'static [u16], Option<CodeFault>)] = &[
        (&[0x000e], None),
        (&[0x0000, 0x003e], Some(CodeFault::BadOpcode(1, 0x3e))),
        (&[0x0000, 0x0013], Some(CodeFault::Truncated(1))),
        (&[0x000e, 0x0100], Some(CodeFault::BadPayload(1))),
        (&[0x0312, 0x000e], Some(CodeFault::Register(0, 3))),
        // a pair of registers
        (&[0x0216, 0, 0x000e], Some(CodeFault::Register(0, 3))),
        (&[0x0116, 0, 0x000e], None),
        // a string, a type, a field and a method
        (&[0x001a, 26, 0x000e], Some(CodeFault::Operand(0, 26))),
        (&[0x001c, 14, 0x000e], Some(CodeFault::Operand(0, 14))),
        (&[0x0062, 1, 0x000e], Some(CodeFault::Operand(0, 1))),
        (&[0x0071, 7, 0, 0x000e], Some(CodeFault::Operand(0, 7))),
        (&[0x031a, 26, 0x003e], Some(CodeFault::Register(0, 3))),
        // the parameters of method 6 take two registers, none and one; a receiver takes one more
        (&[0x3071, 6, 0x0210, 0x000e], None),
        (
            &[0x0377, 6, 0, 0x2071, 6, 0x0010],
            Some(CodeFault::ArgCount(3)),
        ),
        (&[0x306e, 6, 0x0210, 0x000e], Some(CodeFault::ArgCount(0))),
        (&[0x106e, 5, 0, 0x106e, 5, 0, 0x000e], None),
        // six registers in a format for five
        (&[0x6071, 5, 0, 0x000e], Some(CodeFault::ArgCount(0))),
        // into an instruction, and into a payload
        (&[0x0038, 1, 0x000e], Some(CodeFault::Target(0, 1))),
        (
            &[0x0228, 0x000e, 0x0300, 1, 0, 0],
            Some(CodeFault::Target(0, 2)),
        ),
        // past the end, no units, and no instruction at 0
        (&[0x0000], Some(CodeFault::FallsOff(0))),
        (&[], Some(CodeFault::FallsOff(0))),
        (&[0x0100, 0, 0, 0], Some(CodeFault::FallsOff(0))),
        (&[0x0012, 0x0300, 1, 0, 0], Some(CodeFault::FallsOff(0))),
        // each kind of table for the other, and an instruction in place of data
        (
            &[0x002c, 4, 0, 0x000e, 0x0100, 0, 0, 0],
            Some(CodeFault::PayloadKind(0)),
        ),
        (
            &[0x002b, 4, 0, 0x000e, 0x0200, 0],
            Some(CodeFault::PayloadKind(0)),
        ),
        (&[0x0026, 3, 0, 0x000e], Some(CodeFault::PayloadKind(0))),
        // data, and a table of keys
        (&[0x0026, 4, 0, 0x000e, 0x0300, 1, 0, 0], None),
        (&[0x002c, 4, 0, 0x000e, 0x0200, 1, 7, 0, 3, 0], None),
        // a nop before a payload
        (&[0x000e, 0x0000, 0x0300, 1, 0, 0], None),
    ];
    for (units, fault) in cases {
        assert_eq!(rt; fault_of(rt.alloc(), units, 0, &[]), *fault, "{units:?}");
    }
}

#[test]
fn a_handler_starts_at_an_instruction(rt: HostRuntime) {
    let cases: &[(&'static [u16], &'static [u8], CodeFault)] = &[
        // into an instruction, before a fault and behind one
        (
            &[0x0013, 0, 0x000e],
            &[0, 0, 0, 0, 0, 0, 1, 0, 1, 0, 1, 0, 1],
            CodeFault::TryTarget(1),
        ),
        (
            &[0x0013, 0, 0x003e],
            &[0, 0, 0, 0, 0, 0, 1, 0, 1, 0, 1, 0, 1],
            CodeFault::TryTarget(1),
        ),
        (
            &[0x003e, 0x0013, 0, 0x000e],
            &[0, 0, 0, 0, 1, 0, 1, 0, 1, 0, 2],
            CodeFault::BadOpcode(0, 0x3e),
        ),
        // into a payload; the lowest of two
        (
            &[0x000e, 0, 0x0300, 1, 0, 0],
            &[0, 0, 0, 0, 1, 0, 1, 0, 1, 0x7f, 11, 3, 2],
            CodeFault::TryTarget(2),
        ),
    ];
    for (units, tail, fault) in cases {
        assert_eq!(rt;
            fault_of(rt.alloc(), units, 1, tail),
            Some(*fault),
            "{units:?}"
        );
    }
}

#[test]
fn a_method_has_registers_for_its_arguments(rt: HostRuntime) {
    let end: &'static [u16] = &[0x000e];
    // the method, its flags, its argument registers, and its code
    let cases: &[(u32, u32, u16, &'static [u16], Option<CodeFault>)] = &[
        (0, 1, 3, end, None),
        (0, 1, 2, end, Some(CodeFault::InsSize)),
        (0, 1, 4, end, Some(CodeFault::InsSize)),
        (0, 9, 2, end, None),
        (6, 8, 3, end, None),
        (6, 0, 4, end, None),
        // before all others
        (0, 1, 2, &[0x003e], Some(CodeFault::InsSize)),
        (0, 1, 2, &[], Some(CodeFault::InsSize)),
    ];
    for (method, flags, ins, units, fault) in cases {
        let code = Code {
            registers: 6,
            ins: *ins,
            tries: 0,
            units,
            tail: &[],
        };
        assert_eq!(rt;
            graph(rt.alloc(), *method, *flags, &code).err(),
            *fault,
            "{method} {ins}"
        );
    }
}

#[test]
fn a_switch_goes_to_each_target_as_often_as_it_names_it(rt: HostRuntime) -> Result<(), Fail> {
    let rows: &[Row] = &[
        (0, &[1, 0, 1, 2, 1, 3], &[], true),
        (3, &[2], &[], true),
        (4, &[], &[], true),
        (5, &[], &[], true),
    ];
    let code = Code {
        registers: 1,
        ins: 0,
        tries: 0,
        units: &[
            0x002b, 6, 0, // packed-switch v0
            0x0000, 0x000e, 0x0000, // nop, return-void, nop
            0x0100, 5, 0, 0, 0, 0, 3, 0, 4, 0, 3, 0, 5, 0, // 0, 3, 4, 3, 5
        ],
        tail: &[],
    };
    let body = graph(rt.alloc(), 5, 8, &code)?;
    assert_eq!(rt; body.len(), rows.len());
    for (index, row) in rows.iter().enumerate() {
        assert!(rt;
            index < body.len() && is_row(body.place(index), row),
            "{index}"
        );
    }
    Ok(())
}
