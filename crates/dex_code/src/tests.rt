//! A small file whose class data or code item is given byte by byte. Places count from `DATA`.
use crate::{ClassMembers, CodeItem, Handler, Member, TryRow, read_class_members, read_code};
use dex_bytes::{DexFault, header_from};
use dex_tables::{Slice, read_tables};
use ns_base::Counted;
use std::alloc::{AllocError, Global};
use std::test::Fail;

// The tables of the file, each with its size and its offset: strings, types, protos, fields, methods,
// classes.
const TABLES: [(u32, u32); 6] = [(4, 112), (3, 128), (1, 140), (5, 152), (4, 192), (2, 224)];

// Types 0 and 2 have one name. Fields 2 and 4 and method 2 are of type 1, the others of type 0 or 2.
const ROWS: [u8; 194] = [
    32, 1, 0, 0, 37, 1, 0, 0, 42, 1, 0, 0, 45, 1, 0, 0, // strings
    0, 0, 0, 0, 1, 0, 0, 0, 3, 0, 0, 0, // types
    2, 0, 0, 0, 0, 0, 0, 0, 0, 0, 0, 0, // protos
    0, 0, 0, 0, 2, 0, 0, 0, 0, 0, 0, 0, 2, 0, 0, 0, // fields
    1, 0, 0, 0, 2, 0, 0, 0, 2, 0, 0, 0, 2, 0, 0, 0, //
    1, 0, 0, 0, 2, 0, 0, 0, //
    0, 0, 0, 0, 2, 0, 0, 0, 0, 0, 0, 0, 2, 0, 0, 0, // methods
    1, 0, 0, 0, 2, 0, 0, 0, 2, 0, 0, 0, 2, 0, 0, 0, //
    0, 0, 0, 0, 1, 0, 0, 0, 0xff, 0xff, 0xff, 0xff, 0, 0, 0, 0, // classes
    0, 0, 0, 0, 0, 0, 0, 0, 50, 1, 0, 0, 0, 0, 0, 0, //
    1, 0, 0, 0, 1, 0, 0, 0, 0xff, 0xff, 0xff, 0xff, 0, 0, 0, 0, //
    0, 0, 0, 0, 0, 0, 0, 0, 0, 0, 0, 0, 0, 0, 0, 0, //
    3, b'L', b'A', b';', 0, 3, b'L', b'B', b';', 0, 1, b'x', 0, // string data
    3, b'L', b'A', b';', 0, //
];

// Where the class data of the first class and the code item stand.
const DATA: usize = 306;

fn put(file: &mut Vec<u8>, number: u32) -> Result<(), AllocError> {
    file.extend_from_slice(&number.to_le_bytes())
}

fn file_with(alloc: Global, data: &[u8]) -> Result<Vec<u8>, AllocError> {
    let mut file = vec![in alloc; 0_u8; 56]?;
    for (size, off) in TABLES {
        put(&mut file, size)?;
        put(&mut file, off)?;
    }
    put(&mut file, 0)?;
    put(&mut file, 0)?;
    file.extend_from_slice(&ROWS)?;
    file.extend_from_slice(data)?;
    Ok(file)
}

fn members_of(alloc: Global, data: &[u8], class: u32) -> Result<ClassMembers, DexFault> {
    let Ok(file) = file_with(alloc, data) else {
        return Err(DexFault::Memory);
    };
    if file.len() < 112 || file.len() > 0xffff_ffff {
        return Err(DexFault::Magic);
    }
    let tables = read_tables(alloc, &file, &header_from(&file))?;
    if class as usize >= tables.classes.len() {
        return Err(DexFault::Magic);
    }
    read_class_members(alloc, &file, &tables, class)
}

fn code_of(alloc: Global, data: &[u8]) -> Result<CodeItem, DexFault> {
    let Ok(file) = file_with(alloc, data) else {
        return Err(DexFault::Memory);
    };
    if file.len() < 112 || file.len() > 0xffff_ffff {
        return Err(DexFault::Magic);
    }
    let tables = read_tables(alloc, &file, &header_from(&file))?;
    read_code(alloc, &file, &tables, DATA as u32)
}

const fn member(id: u32, flags: u32, code: u32) -> Member {
    Member { id, flags, code }
}

#[test]
fn members_are_read_list_by_list(rt: HostRuntime) -> Result<(), Fail> {
    let data = [
        2, 1, 1, 2, 0, 8, 1, 9, 3, 1, 0, 0x81, 0x80, 0x04, 0xac, 0x02, 1, 1, 0, 2, 0x85, 0x02, 5,
    ];
    let members = members_of(rt.alloc(), &data, 0)
        .ok()
        .ok_or("all members are sound")?;
    assert_eq!(rt;
        members.statics.as_slice(),
        [member(0, 8, 0), member(1, 9, 0)].as_slice()
    );
    assert_eq!(rt; members.instances.as_slice(), [member(3, 1, 0)].as_slice());
    assert_eq!(rt;
        members.directs.as_slice(),
        [member(0, 0x10001, 300)].as_slice()
    );
    assert_eq!(rt;
        members.virtuals.as_slice(),
        [member(1, 1, 0), member(3, 0x105, 5)].as_slice()
    );
    let none = members_of(rt.alloc(), &data, 1)
        .ok()
        .ok_or("a class may have no data")?;
    assert!(rt; none.statics.is_empty() && none.instances.is_empty());
    assert!(rt; none.directs.is_empty() && none.virtuals.is_empty());
    Ok(())
}

#[test]
fn the_first_fault_of_class_data_is_named(rt: HostRuntime) {
    let cases: &[(&[u8], DexFault)] = &[
        (&[], DexFault::Short(DATA)),
        (&[1], DexFault::Short(DATA + 1)),
        (&[1, 0, 0, 0], DexFault::Short(DATA + 4)),
        (&[1, 0, 0, 0, 0], DexFault::Short(DATA + 5)),
        (&[0x80, 0x80, 0x80, 0x80, 0x10], DexFault::Leb(DATA)),
        // past the table, but only once the last number of the entry is there
        (&[1, 0, 0, 0, 5, 1], DexFault::MemberIndex(DATA + 4)),
        (&[0, 0, 1, 0, 9, 1], DexFault::Short(DATA + 6)),
        (&[0, 0, 1, 0, 9, 1, 0], DexFault::MemberIndex(DATA + 4)),
        // the sum of the differences is past 32 bits
        (
            &[2, 0, 0, 0, 1, 1, 0xff, 0xff, 0xff, 0xff, 0x0f, 1],
            DexFault::MemberIndex(DATA + 6),
        ),
        // the one before it once more
        (&[2, 0, 0, 0, 1, 1, 0, 1], DexFault::MemberIndex(DATA + 6)),
        // of another class
        (&[0, 1, 0, 0, 2, 1], DexFault::MemberIndex(DATA + 4)),
        (
            &[1, 0, 0, 1, 0, 1, 2, 1, 0],
            DexFault::MemberIndex(DATA + 6),
        ),
    ];
    for (data, fault) in cases {
        assert_eq!(rt;
            members_of(rt.alloc(), data, 0).err(),
            Some(*fault),
            "{data:?}"
        );
    }
}

// Three units, two tries, and three lists, of which no try names the second.
const CODE: [u8; 50] = [
    3, 0, 1, 0, 2, 0, 2, 0, 0, 0, 0, 0, 3, 0, 0, 0, // front
    0x0e, 0, 0, 0, 0x0e, 0, // units
    0, 0, // padding
    0, 0, 0, 0, 1, 0, 1, 0, 1, 0, 0, 0, 2, 0, 7, 0, // tries
    3, // lists
    0x7f, 1, 2, 0, // one type, and every other
    0, 99, // every type
    1, 0, 0, // one type
];

#[test]
fn code_is_read_with_its_handlers(rt: HostRuntime) -> Result<(), Fail> {
    let code = code_of(rt.alloc(), &CODE).ok().ok_or("the code is sound")?;
    assert_eq!(rt; (code.registers, code.ins, code.outs), (3, 1, 2));
    assert_eq!(rt; code.units.as_slice(), [14, 0, 14].as_slice());
    let tries = [
        TryRow {
            start: 0,
            count: 1,
            handlers: Slice { at: 0, len: 2 },
        },
        TryRow {
            start: 1,
            count: 2,
            handlers: Slice { at: 2, len: 1 },
        },
    ];
    assert_eq!(rt; code.tries.as_slice(), tries.as_slice());
    let handlers = [
        Handler {
            caught: Some(1),
            target: 2,
        },
        Handler {
            caught: None,
            target: 0,
        },
        Handler {
            caught: Some(0),
            target: 0,
        },
    ];
    assert_eq!(rt; code.handlers.as_slice(), handlers.as_slice());
    // without tries there is neither padding nor a handler part
    let plain = code_of(
        rt.alloc(),
        &[0, 0, 0, 0, 0, 0, 0, 0, 0, 0, 0, 0, 1, 0, 0, 0, 0x0e, 0],
    )
    .ok()
    .ok_or("the code is sound")?;
    assert!(rt; plain.units.len() == 1 && plain.tries.is_empty() && plain.handlers.is_empty());
    Ok(())
}

#[test]
fn the_first_fault_of_a_code_item_is_named(rt: HostRuntime) -> Result<(), Fail> {
    // every cut: the front, the units, the two rows of tries, and each number of the handler part
    for len in 0..CODE.len() {
        let piece = match len {
            0..16 => 0,
            16..22 => 16,
            22..32 => 24,
            32..40 => 32,
            _ => len,
        };
        let wanted = Some(DexFault::Short(DATA + piece));
        assert_eq!(rt; code_of(rt.alloc(), &CODE[..len]).err(), wanted, "{len}");
    }
    // one byte put elsewhere
    let cases: &[(usize, u8, Option<DexFault>)] = &[
        (2, 4, Some(DexFault::Registers(DATA))),
        (28, 0, Some(DexFault::TryRange(DATA + 24))),
        (28, 2, Some(DexFault::TryRange(DATA + 32))),
        (32, 0, Some(DexFault::TryRange(DATA + 32))),
        (36, 3, Some(DexFault::TryRange(DATA + 32))),
        (30, 2, Some(DexFault::HandlerOffset(DATA + 24))),
        (38, 0, Some(DexFault::HandlerOffset(DATA + 32))),
        (38, 10, Some(DexFault::HandlerOffset(DATA + 32))),
        (38, 1, None),
        (40, 4, Some(DexFault::Short(DATA + 50))),
        (42, 3, Some(DexFault::Index(1, 0, 3))),
        (43, 3, Some(DexFault::HandlerAddress(DATA + 43))),
        (44, 5, Some(DexFault::HandlerAddress(DATA + 44))),
        (48, 7, Some(DexFault::Index(1, 1, 7))),
        (49, 3, Some(DexFault::HandlerAddress(DATA + 49))),
    ];
    for (at, byte, wanted) in cases {
        let mut code = CODE.as_slice().to_vec(rt.alloc())?;
        if let Some(place) = code.get_mut(*at) {
            *place = *byte;
        }
        assert_eq!(rt; code_of(rt.alloc(), &code).err(), *wanted, "{at} {byte}");
    }
    // a list of the lowest size there is
    let (front, _) = CODE.split_at(40);
    let mut code = front.to_vec(rt.alloc())?;
    code.extend_from_slice(&[1, 0x80, 0x80, 0x80, 0x80, 0x78, 0, 0])?;
    assert_eq!(rt;
        code_of(rt.alloc(), &code).err(),
        Some(DexFault::Short(DATA + 48))
    );
    Ok(())
}

#[test]
fn tries_that_share_a_long_list_end_at_the_limit(rt: HostRuntime) -> Result<(), Fail> {
    let mut code = vec![in rt.alloc(); 0_u8; 0]?;
    code.extend_from_slice(&[0, 0, 0, 0, 0, 0, 0xff, 0xff, 0, 0, 0, 0, 0xff, 0xff, 0, 0])?;
    for _ in 0..0xffff_u32 {
        code.extend_from_slice(&[0x0e, 0])?;
    }
    code.extend_from_slice(&[0, 0])?;
    for start in 0..0xffff_u32 {
        put(&mut code, start)?;
        code.extend_from_slice(&[1, 0, 1, 0])?;
    }
    // a list of 1,000 handlers and a last one
    code.extend_from_slice(&[1, 0x98, 0x78])?;
    for _ in 0..2_001_u32 {
        code.extend_from_slice(&[0])?;
    }
    assert_eq!(rt;
        code_of(rt.alloc(), &code).err(),
        Some(DexFault::Limit(Counted::Handlers))
    );
    Ok(())
}
