//! Small files: a header that says where the tables stand, and the bytes after it.
use crate::{ClassDef, FieldId, MethodId, ProtoId, Slice, Tables, read_tables, string_bytes};
use dex_bytes::{DexFault, header_from};
use ns_base::Counted;
use std::alloc::{AllocError, Global};
use std::test::Fail;

// The tables of the sample, each with its size and its offset.
const TABLES: [(u32, u32); 6] = [(3, 112), (2, 124), (2, 132), (1, 156), (1, 164), (2, 172)];

// The rows of those tables; at 236 the data of the three strings, at 247 and 255 two type lists.
const ROWS: [u8; 149] = [
    236, 0, 0, 0, 239, 0, 0, 0, 243, 0, 0, 0, // strings
    1, 0, 0, 0, 2, 0, 0, 0, // types
    0, 0, 0, 0, 1, 0, 0, 0, 247, 0, 0, 0, // protos
    2, 0, 0, 0, 0, 0, 0, 0, 0, 0, 0, 0, //
    0, 0, 1, 0, 2, 0, 0, 0, // fields
    1, 0, 1, 0, 0, 0, 0, 0, // methods
    0, 0, 0, 0, 1, 0, 0, 0, 0xff, 0xff, 0xff, 0xff, 255, 0, 0, 0, // classes
    9, 9, 9, 9, 8, 8, 8, 8, 7, 7, 0, 0, 6, 6, 6, 6, //
    1, 0, 0, 0, 2, 0, 0, 0, 0, 0, 0, 0, 0, 0, 0, 0, //
    9, 9, 9, 9, 8, 8, 8, 8, 0, 0, 0, 0, 6, 6, 6, 6, //
    1, b'A', 0, 2, b'L', b';', 0, 1, 0xc3, 0xa9, 0, // string data
    2, 0, 0, 0, 1, 0, 0, 0, 1, 0, 0, 0, 0, 0, // type lists
];

fn put(file: &mut Vec<u8>, number: u32) -> Result<(), AllocError> {
    file.extend_from_slice(&number.to_le_bytes())
}

// A file with these tables, each with its size and its offset, and these bytes after its header.
fn laid_out(alloc: Global, tables: &[(u32, u32)], rows: &[u8]) -> Result<Vec<u8>, AllocError> {
    let mut file = vec![in alloc; 0_u8; 56]?;
    for (size, off) in tables {
        put(&mut file, *size)?;
        put(&mut file, *off)?;
    }
    put(&mut file, 0)?;
    put(&mut file, 0)?;
    file.extend_from_slice(rows)?;
    Ok(file)
}

fn tables_of(alloc: Global, file: &[u8]) -> Result<Tables, DexFault> {
    if file.len() < 112 || file.len() > 0xffff_ffff {
        return Err(DexFault::Short(0));
    }
    read_tables(alloc, file, &header_from(file))
}

#[test]
fn rows_are_read_as_they_stand(rt: HostRuntime) -> Result<(), Fail> {
    let file = laid_out(rt.alloc(), &TABLES, &ROWS)?;
    let tables = tables_of(rt.alloc(), &file)
        .ok()
        .ok_or("the sample is sound")?;
    let strings = [
        Slice { at: 237, len: 1 },
        Slice { at: 240, len: 2 },
        Slice { at: 244, len: 2 },
    ];
    assert_eq!(rt; tables.strings.as_slice(), strings.as_slice());
    assert_eq!(rt; tables.types.as_slice(), [1, 2].as_slice());
    let protos = [
        ProtoId {
            shorty: 0,
            result: 1,
            params: Slice { at: 0, len: 2 },
        },
        ProtoId {
            shorty: 2,
            result: 0,
            params: Slice { at: 2, len: 0 },
        },
    ];
    assert_eq!(rt; tables.protos.as_slice(), protos.as_slice());
    let field = FieldId {
        class: 0,
        kind: 1,
        name: 2,
    };
    assert_eq!(rt; tables.fields.as_slice(), [field].as_slice());
    let method = MethodId {
        class: 1,
        proto: 1,
        name: 0,
    };
    assert_eq!(rt; tables.methods.as_slice(), [method].as_slice());
    let classes = [
        ClassDef {
            class: 0,
            flags: 1,
            parent: None,
            interfaces: Slice { at: 2, len: 1 },
            members: 0x0000_0707,
        },
        ClassDef {
            class: 1,
            flags: 2,
            parent: Some(0),
            interfaces: Slice { at: 3, len: 0 },
            members: 0,
        },
    ];
    assert_eq!(rt; tables.classes.as_slice(), classes.as_slice());
    assert_eq!(rt; tables.lists.as_slice(), [1, 0, 0].as_slice());
    Ok(())
}

// The bytes of a string, where the file is sound.
fn text_of(alloc: Global, file: &[u8], string: u32) -> Option<Option<&[u8]>> {
    if file.len() < 112 || file.len() > 0xffff_ffff {
        return None;
    }
    match read_tables(alloc, file, &header_from(file)) {
        Ok(tables) => Some(string_bytes(file, &tables, string)),
        Err(_) => None,
    }
}

#[test]
fn texts_are_found_by_their_number(rt: HostRuntime) -> Result<(), Fail> {
    let file = laid_out(rt.alloc(), &TABLES, &ROWS)?;
    let texts: &[(u32, Option<&[u8]>)] = &[
        (0, Some(b"A")),
        (1, Some(b"L;")),
        (2, Some(&[0xc3, 0xa9])),
        (3, None),
        (0xffff_ffff, None),
    ];
    for (string, text) in texts {
        assert_eq!(rt;
            text_of(rt.alloc(), &file, *string),
            Some(*text),
            "string {string}"
        );
    }
    Ok(())
}

// The sample with these numbers at these places.
fn changed(alloc: Global, places: &[(u16, u32)]) -> Result<Vec<u8>, AllocError> {
    let mut file = laid_out(alloc, &TABLES, &ROWS)?;
    for (at, number) in places {
        for (i, byte) in number.to_le_bytes().iter().enumerate() {
            if let Some(old) = file.get_mut(usize::from(*at) + i) {
                *old = *byte;
            }
        }
    }
    Ok(file)
}

fn fault_of(alloc: Global, file: &[u8]) -> Option<DexFault> {
    match tables_of(alloc, file) {
        Ok(_) => None,
        Err(fault) => Some(fault),
    }
}

#[test]
fn the_first_fault_is_the_answer(rt: HostRuntime) -> Result<(), Fail> {
    let cases: &[(&[(u16, u32)], Option<DexFault>)] = &[
        // tables past the end
        (&[(56, 0xffff_ffff)], Some(DexFault::TableRange(0))),
        (&[(60, 250)], Some(DexFault::TableRange(0))),
        (&[(60, 0xffff_ffff)], Some(DexFault::TableRange(0))),
        (&[(64, 0xffff_ffff)], Some(DexFault::TableRange(1))),
        (&[(72, 0x2000_0000)], Some(DexFault::TableRange(2))),
        (&[(84, 254)], Some(DexFault::TableRange(3))),
        (
            &[(88, 0xffff_ffff), (92, 0xffff_ffff)],
            Some(DexFault::TableRange(4)),
        ),
        (&[(96, 3)], Some(DexFault::TableRange(5))),
        (&[(96, 0), (100, 262)], Some(DexFault::TableRange(5))),
        // numbers past the table that they name
        (&[(124, 3)], Some(DexFault::Index(1, 0, 3))),
        (
            &[(128, 0xffff_ffff)],
            Some(DexFault::Index(1, 1, 0xffff_ffff)),
        ),
        (&[(132, 3)], Some(DexFault::Index(2, 0, 3))),
        (&[(136, 2)], Some(DexFault::Index(2, 0, 2))),
        (&[(144, 4)], Some(DexFault::Index(2, 1, 4))),
        (&[(251, 0x0003_0001)], Some(DexFault::Index(2, 0, 3))),
        (&[(251, 0x0003_0002)], Some(DexFault::Index(2, 0, 2))),
        (&[(156, 0x0001_0002)], Some(DexFault::Index(3, 0, 2))),
        (&[(156, 0x0003_0000)], Some(DexFault::Index(3, 0, 3))),
        (&[(160, 3)], Some(DexFault::Index(3, 0, 3))),
        (&[(164, 0x0001_0002)], Some(DexFault::Index(4, 0, 2))),
        (&[(164, 0x0004_0001)], Some(DexFault::Index(4, 0, 4))),
        (&[(168, 3)], Some(DexFault::Index(4, 0, 3))),
        (&[(172, 2)], Some(DexFault::Index(5, 0, 2))),
        (
            &[(180, 0xffff_fffe)],
            Some(DexFault::Index(5, 0, 0xffff_fffe)),
        ),
        (&[(257, 0x0002_0000)], Some(DexFault::Index(5, 0, 2))),
        (&[(204, 2)], Some(DexFault::Index(5, 1, 2))),
        // data of strings
        (&[(112, 261)], Some(DexFault::Short(261))),
        (&[(112, 262)], Some(DexFault::Short(262))),
        (&[(112, 0xffff_ffff)], Some(DexFault::Short(0xffff_ffff))),
        (&[(112, 260)], Some(DexFault::Short(261))),
        (
            &[(112, 258), (257, 0x4141_0200)],
            Some(DexFault::Short(259)),
        ),
        (
            &[(112, 257), (257, 0x8080_8080)],
            Some(DexFault::Short(257)),
        ),
        (
            &[(116, 247), (247, 0xffff_ffff), (251, 0x1f)],
            Some(DexFault::Leb(247)),
        ),
        (&[(236, 0x0200_ff01)], Some(DexFault::Mutf8(237))),
        (&[(236, 0x0200_4102)], Some(DexFault::Mutf8(238))),
        // type lists
        (&[(140, 258)], Some(DexFault::Short(258))),
        (&[(140, 0xffff_ffff)], Some(DexFault::Short(0xffff_ffff))),
        (&[(247, 8)], Some(DexFault::Short(251))),
        (&[(247, 0x8000_0000)], Some(DexFault::Short(251))),
        (&[(184, 259)], Some(DexFault::Short(259))),
        // of several faults the first in the order of the tables, rows and fields
        (&[(64, 0xffff_ffff), (112, 300)], Some(DexFault::Short(300))),
        (
            &[(72, 0x2000_0000), (124, 9)],
            Some(DexFault::Index(1, 0, 9)),
        ),
        (&[(128, 9), (124, 8)], Some(DexFault::Index(1, 0, 8))),
        (&[(140, 300), (136, 9)], Some(DexFault::Index(2, 0, 9))),
        (&[(140, 300), (144, 9)], Some(DexFault::Short(300))),
        (&[(184, 300), (180, 9)], Some(DexFault::Index(5, 0, 9))),
        // accepted: an empty table at the end, an empty list in the last bytes, tables over each other,
        // and data inside the header
        (&[(96, 0), (100, 261)], None),
        (&[(140, 257)], None),
        (&[(84, 164)], None),
        (&[(140, 4)], None),
        (&[(112, 0)], None),
    ];
    for (places, fault) in cases {
        let file = changed(rt.alloc(), places)?;
        assert_eq!(rt; fault_of(rt.alloc(), &file), *fault, "{places:?}");
    }
    Ok(())
}

#[test]
fn shared_data_counts_each_time_it_is_named(rt: HostRuntime) -> Result<(), Fail> {
    // 8,192 strings with the same data of so many bytes
    for (low, fault) in [
        (0x80, None),
        (0x81, Some(DexFault::Limit(Counted::Strings))),
    ] {
        let mut rows = Vec::new(rt.alloc());
        for _ in 0..8192 {
            put(&mut rows, 32880)?;
        }
        rows.extend_from_slice(&[low, 0x40])?;
        for _ in 0..8192 + u32::from(low - 0x80) {
            rows.push(b'a')?;
        }
        rows.push(0)?;
        let tables = [(8192, 112), (0, 0), (0, 0), (0, 0), (0, 0), (0, 0)];
        let file = laid_out(rt.alloc(), &tables, &rows)?;
        assert_eq!(rt; fault_of(rt.alloc(), &file), fault, "{low}");
    }
    // 2,048 prototypes with the same list of as many parameters, and a class with so many interfaces
    for (interfaces, fault) in [
        (0, None),
        (24728, Some(DexFault::Limit(Counted::TypeLists))),
    ] {
        let mut rows = Vec::new(rt.alloc());
        rows.extend_from_slice(&[0; 8])?;
        for _ in 0..2048 {
            put(&mut rows, 0)?;
            put(&mut rows, 0)?;
            put(&mut rows, 24728)?;
        }
        for number in [0, 0, 0xffff_ffff, interfaces, 0, 0, 0, 0] {
            put(&mut rows, number)?;
        }
        put(&mut rows, 2048)?;
        for _ in 0..1024 {
            put(&mut rows, 0)?;
        }
        let tables = [(1, 112), (1, 116), (2048, 120), (0, 0), (0, 0), (1, 24696)];
        let file = laid_out(rt.alloc(), &tables, &rows)?;
        assert_eq!(rt; fault_of(rt.alloc(), &file), fault, "{interfaces}");
    }
    Ok(())
}
