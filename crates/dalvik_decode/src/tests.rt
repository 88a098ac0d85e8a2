use super::*;
use dalvik::{Args, Ins};
use std::test::Fail;

/// Units, how many of them the instruction takes, and the instruction.
struct Case {
    units: [u16; 5],
    count: usize,
    ins: Ins,
}

/// Each format, with operands at the ends of their ranges. The high byte of the first unit is not
/// looked at where a format has nothing there.
static CASES: [Case; 36] = [
    Case {
        units: [0x0000, 0, 0, 0, 0],
        count: 1,
        ins: Ins::Nop,
    },
    Case {
        units: [0xff0e, 0, 0, 0, 0],
        count: 1,
        ins: Ins::ReturnVoid,
    },
    Case {
        units: [0xf101, 0, 0, 0, 0],
        count: 1,
        ins: Ins::Move {
            op: 0x01,
            to: 1,
            from: 15,
        },
    },
    Case {
        units: [0x1fb0, 0, 0, 0, 0],
        count: 1,
        ins: Ins::Binary {
            op: 0xb0,
            to: 15,
            left: 15,
            right: 1,
        },
    },
    Case {
        units: [0x1012, 0, 0, 0, 0],
        count: 1,
        ins: Ins::Const {
            op: 0x12,
            to: 0,
            value: 1,
        },
    },
    Case {
        units: [0x8f12, 0, 0, 0, 0],
        count: 1,
        ins: Ins::Const {
            op: 0x12,
            to: 15,
            value: -8,
        },
    },
    Case {
        units: [0x7012, 0, 0, 0, 0],
        count: 1,
        ins: Ins::Const {
            op: 0x12,
            to: 0,
            value: 7,
        },
    },
    Case {
        units: [0xff0a, 0, 0, 0, 0],
        count: 1,
        ins: Ins::MoveResult { op: 0x0a, to: 255 },
    },
    Case {
        units: [0x8028, 0, 0, 0, 0],
        count: 1,
        ins: Ins::Goto {
            op: 0x28,
            offset: -128,
        },
    },
    Case {
        units: [0x7f28, 0, 0, 0, 0],
        count: 1,
        ins: Ins::Goto {
            op: 0x28,
            offset: 127,
        },
    },
    Case {
        units: [0xff29, 0x8000, 0, 0, 0],
        count: 2,
        ins: Ins::Goto {
            op: 0x29,
            offset: -32768,
        },
    },
    Case {
        units: [0xff02, 0xffff, 0, 0, 0],
        count: 2,
        ins: Ins::Move {
            op: 0x02,
            to: 255,
            from: 65535,
        },
    },
    Case {
        units: [0xff03, 0xffff, 1, 0, 0],
        count: 3,
        ins: Ins::Move {
            op: 0x03,
            to: 65535,
            from: 1,
        },
    },
    Case {
        units: [0xff38, 0x8000, 0, 0, 0],
        count: 2,
        ins: Ins::IfZero {
            op: 0x38,
            value: 255,
            offset: -32768,
        },
    },
    Case {
        units: [0xff13, 0x8000, 0, 0, 0],
        count: 2,
        ins: Ins::Const {
            op: 0x13,
            to: 255,
            value: -32768,
        },
    },
    Case {
        units: [0x0116, 0x7fff, 0, 0, 0],
        count: 2,
        ins: Ins::Const {
            op: 0x16,
            to: 1,
            value: 32767,
        },
    },
    Case {
        units: [0x0015, 0x8000, 0, 0, 0],
        count: 2,
        ins: Ins::Const {
            op: 0x15,
            to: 0,
            value: -2_147_483_648,
        },
    },
    Case {
        units: [0xff15, 0x7fff, 0, 0, 0],
        count: 2,
        ins: Ins::Const {
            op: 0x15,
            to: 255,
            value: 2_147_418_112,
        },
    },
    Case {
        units: [0x0019, 0x8000, 0, 0, 0],
        count: 2,
        ins: Ins::Const {
            op: 0x19,
            to: 0,
            value: -9_223_372_036_854_775_808,
        },
    },
    Case {
        units: [0xff19, 0x7fff, 0, 0, 0],
        count: 2,
        ins: Ins::Const {
            op: 0x19,
            to: 255,
            value: 9_223_090_561_878_065_152,
        },
    },
    Case {
        units: [0xff1a, 0xffff, 0, 0, 0],
        count: 2,
        ins: Ins::ConstString {
            op: 0x1a,
            to: 255,
            string: 65535,
        },
    },
    Case {
        units: [0xff1b, 0xfffe, 0xffff, 0, 0],
        count: 3,
        ins: Ins::ConstString {
            op: 0x1b,
            to: 255,
            string: 4_294_967_294,
        },
    },
    Case {
        units: [0x012d, 0xff80, 0, 0, 0],
        count: 2,
        ins: Ins::Compare {
            op: 0x2d,
            to: 1,
            left: 128,
            right: 255,
        },
    },
    Case {
        units: [0xffd8, 0x80fe, 0, 0, 0],
        count: 2,
        ins: Ins::BinaryLiteral {
            op: 0xd8,
            to: 255,
            from: 254,
            value: -128,
        },
    },
    Case {
        units: [0xf032, 0x8000, 0, 0, 0],
        count: 2,
        ins: Ins::IfPair {
            op: 0x32,
            left: 0,
            right: 15,
            offset: -32768,
        },
    },
    Case {
        units: [0x0fd0, 0x7fff, 0, 0, 0],
        count: 2,
        ins: Ins::BinaryLiteral {
            op: 0xd0,
            to: 15,
            from: 0,
            value: 32767,
        },
    },
    Case {
        units: [0xef52, 0xffff, 0, 0, 0],
        count: 2,
        ins: Ins::FieldGet {
            op: 0x52,
            to: 15,
            object: 14,
            field: 65535,
        },
    },
    Case {
        units: [0xff2a, 0x0000, 0x8000, 0, 0],
        count: 3,
        ins: Ins::Goto {
            op: 0x2a,
            offset: -2_147_483_648,
        },
    },
    Case {
        units: [0xff14, 0x0000, 0x8000, 0, 0],
        count: 3,
        ins: Ins::Const {
            op: 0x14,
            to: 255,
            value: -2_147_483_648,
        },
    },
    Case {
        units: [0x012b, 0xffff, 0xffff, 0, 0],
        count: 3,
        ins: Ins::Switch {
            op: 0x2b,
            value: 1,
            offset: -1,
        },
    },
    Case {
        units: [0xff26, 0xffff, 0x7fff, 0, 0],
        count: 3,
        ins: Ins::FillArrayData {
            array: 255,
            offset: 2_147_483_647,
        },
    },
    Case {
        units: [0x5f6e, 0xffff, 0xdcba, 0, 0],
        count: 3,
        ins: Ins::Invoke {
            op: 0x6e,
            method: 65535,
            args: Args::List {
                count: 5,
                registers: [10, 11, 12, 13, 15],
            },
        },
    },
    Case {
        units: [0x2f24, 1, 0x4321, 0, 0],
        count: 3,
        ins: Ins::FilledNewArray {
            op: 0x24,
            kind: 1,
            args: Args::List {
                count: 2,
                registers: [1, 2, 0, 0, 0],
            },
        },
    },
    Case {
        units: [0xff74, 1, 0xffff, 0, 0],
        count: 3,
        ins: Ins::Invoke {
            op: 0x74,
            method: 1,
            args: Args::Range {
                first: 65535,
                count: 255,
            },
        },
    },
    Case {
        units: [0x0018, 0, 0, 0, 0x8000],
        count: 5,
        ins: Ins::Const {
            op: 0x18,
            to: 0,
            value: -9_223_372_036_854_775_808,
        },
    },
    Case {
        units: [0xff18, 0xffff, 0xffff, 0xffff, 0x7fff],
        count: 5,
        ins: Ins::Const {
            op: 0x18,
            to: 255,
            value: 9_223_372_036_854_775_807,
        },
    },
];

#[test]
fn decodes_each_format_and_refuses_fewer_units(rt: HostRuntime) -> Result<(), Fail> {
    for case in CASES.iter() {
        assert!(rt; case.count >= 1 && case.count <= 5);
        let whole = decode_at(&case.units, 0);
        assert_eq!(rt; whole, Ok((case.ins, case.count as u32)));
        for count in 1..case.count {
            let fewer = decode_at(&case.units[..count], 0);
            assert_eq!(rt; fewer, Err(CodeFault::Truncated(0)), "with {count} units");
        }
    }
    Ok(())
}

#[test]
fn refuses_unused_opcodes_alone_and_too_many_arguments(rt: HostRuntime) -> Result<(), Fail> {
    for op in 0..=255u8 {
        let unused = matches!(op, 0x3e..=0x43 | 0x73 | 0x79 | 0x7a | 0xe3..=0xff);
        let units = [0, op as u16, 0, 0, 0, 0];
        let found = decode_at(&units, 1);
        assert_eq!(rt; found.is_ok(), !unused, "opcode {op}");
        if unused {
            assert_eq!(rt; found, Err(CodeFault::BadOpcode(1, op)));
        }
    }
    assert_eq!(rt; decode_at(&[0x606e, 0, 0], 0), Err(CodeFault::ArgCount(0)));
    assert_eq!(rt; decode_at(&[0x606e, 0], 0), Err(CodeFault::Truncated(0)));
    Ok(())
}

#[test]
fn reads_whole_payloads(rt: HostRuntime) -> Result<(), Fail> {
    let packed = [0, 0x0100, 2, 0, 0, 3, 0, 5, 0];
    assert_eq!(rt; payload_len(&packed, 1), Some(8));
    let Payload::Packed { first, targets } = read_payload(rt.alloc(), &packed, 1)? else {
        return Err(Fail::from("no packed switch"));
    };
    assert_eq!(rt; first, 0);
    assert_eq!(rt; targets.as_slice(), [3, 5].as_slice());
    let sparse = [0x0200, 2, 0xffff, 0xffff, 7, 0, 0, 0x8000, 9, 0];
    assert_eq!(rt; payload_len(&sparse, 0), Some(10));
    let Payload::Sparse { keys, targets } = read_payload(rt.alloc(), &sparse, 0)? else {
        return Err(Fail::from("no sparse switch"));
    };
    assert_eq!(rt; keys.as_slice(), [-1, 7].as_slice());
    assert_eq!(rt; targets.as_slice(), [-2_147_483_648, 9].as_slice());
    let array = [0x0300, 1, 3, 0, 0x0201, 0x0003];
    assert_eq!(rt; payload_len(&array, 0), Some(6));
    assert_eq!(rt;
        read_payload(rt.alloc(), &array, 0)?,
        Payload::Array { width: 1, count: 3 }
    );
    Ok(())
}

#[test]
fn refuses_payloads_that_end_too_early(rt: HostRuntime) -> Result<(), Fail> {
    let bad = Err(CodeFault::BadPayload(0));
    assert_eq!(rt; payload_len(&[0x0100], 0), None);
    assert_eq!(rt; payload_len(&[0x0300, 1, 1], 0), None);
    assert_eq!(rt; payload_len(&[0x0100, 0xffff], 0), Some(131_074));
    assert_eq!(rt; payload_len(&[0x0200, 0xffff], 0), Some(262_142));
    let huge = [0x0300, 0xffff, 0xffff, 0xffff];
    assert_eq!(rt; payload_len(&huge, 0), Some(140_735_340_838_917));
    assert_eq!(rt; read_payload(rt.alloc(), &huge, 0), bad);
    assert_eq!(rt; read_payload(rt.alloc(), &[0x0100, 0xffff, 0, 0], 0), bad);
    assert_eq!(rt; read_payload(rt.alloc(), &[0x0000], 0), bad);
    Ok(())
}
