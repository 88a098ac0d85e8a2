//! A small file of the class `Lapp/R;`, with a static lock and the methods `<init>` and `onReceive`. Its
//! two sums were computed by other programs, as were those of the same file with some bytes put elsewhere.
use crate::parts::FileParts;
use crate::{DexParts, FileFault, read_dex};
use dalvik_decode::CodeFault;
use dex_bytes::DexFault;
use dex_tables::{FieldId, MethodId};
use std::alloc::{AllocError, Global};
use std::test::Fail;

// The header from the file size on.
const HEAD: [u32; 20] = [
    494,
    112,
    0x1234_5678,
    0,
    0,
    0,
    10,
    112,
    6,
    152,
    2,
    176,
    1,
    200,
    3,
    208,
    1,
    232,
    0,
    0,
];

const IDS: [u8; 152] = [
    0x10, 1, 0, 0, 0x19, 1, 0, 0, 0x3e, 1, 0, 0, 0x62, 1, 0, 0, // strings
    0x65, 1, 0, 0, 0x69, 1, 0, 0, 0x74, 1, 0, 0, 0x79, 1, 0, 0, //
    0x94, 1, 0, 0, 0xae, 1, 0, 0, //
    0, 0, 0, 0, 1, 0, 0, 0, 2, 0, 0, 0, 3, 0, 0, 0, 7, 0, 0, 0, 8, 0, 0, 0, // types
    6, 0, 0, 0, 3, 0, 0, 0, 8, 1, 0, 0, // protos
    3, 0, 0, 0, 3, 0, 0, 0, 0, 0, 0, 0, //
    0, 0, 2, 0, 4, 0, 0, 0, // fields
    0, 0, 1, 0, 9, 0, 0, 0, 0, 0, 0, 0, 5, 0, 0, 0, // methods
    1, 0, 1, 0, 9, 0, 0, 0, //
    0, 0, 0, 0, 1, 0, 0, 0, 1, 0, 0, 0, 0, 0, 0, 0, // classes
    0xff, 0xff, 0xff, 0xff, 0, 0, 0, 0, 0xb6, 1, 0, 0, 0, 0, 0, 0, //
];

const TEXTS: [&str; 10] = [
    "Lapp/R;",
    "Landroid/content/BroadcastReceiver;",
    "Landroid/os/PowerManager$WakeLock;",
    "V",
    "wl",
    "onReceive",
    "VLL",
    "Landroid/content/Context;",
    "Landroid/content/Intent;",
    "<init>",
];

// The class data at 438, padding, and the code items at 456 and 476.
const CODE: [u8; 56] = [
    1, 0, 1, 1, 0, 9, 0, 0x81, 0x80, 4, 0xc8, 3, 1, 1, 0xdc, 3, // 438
    0, 0, //
    1, 0, 1, 0, 0, 0, 0, 0, 0, 0, 0, 0, 1, 0, 0, 0, 0x0e, 0, 0, 0, // 456
    3, 0, 3, 0, 0, 0, 0, 0, 0, 0, 0, 0, 1, 0, 0, 0, 0x0e, 0, // 476
];

// Checksum and signature of the file as it is.
const SUMS: [u8; 24] = [
    230, 84, 215, 12, 157, 76, 60, 165, 248, 137, 104, 226, 144, 29, 29, 242, 111, 204, 90, 15,
    150, 246, 58, 209,
];

// The file with these sums, and some bytes put elsewhere.
fn file_with(alloc: Global, sums: &[u8; 24], puts: &[(usize, u8)]) -> Result<Vec<u8>, AllocError> {
    let mut file = b"dex\n035\0".as_slice().to_vec(alloc)?;
    file.extend_from_slice(sums)?;
    for number in HEAD {
        file.extend_from_slice(&number.to_le_bytes())?;
    }
    file.extend_from_slice(&IDS)?;
    file.extend_from_slice(&[2, 0, 0, 0, 4, 0, 5, 0])?;
    for text in TEXTS {
        file.push(text.len() as u8)?;
        file.extend_from_slice(text.as_bytes())?;
        file.push(0)?;
    }
    file.extend_from_slice(&CODE)?;
    for (at, byte) in puts {
        if let Some(place) = file.get_mut(*at) {
            *place = *byte;
        }
    }
    Ok(file)
}

const PROTOS: [(u32, u32, &[u16]); 2] = [(6, 3, &[4, 5]), (3, 3, &[])];

const fn method(class: u16, proto: u16, name: u32) -> MethodId {
    MethodId { class, proto, name }
}

fn read(alloc: Global, sums: &[u8; 24], puts: &[(usize, u8)]) -> Result<FileParts, FileFault> {
    let file = file_with(alloc, sums, puts)?;
    if file.len() > 0xffff_ffff {
        return Err(FileFault::Memory);
    }
    let DexParts { parts } = read_dex(alloc, &file)?;
    Ok(parts)
}

#[test]
fn the_tables_are_read_back(rt: HostRuntime) -> Result<(), Fail> {
    let parts = read(rt.alloc(), &SUMS, &[])
        .ok()
        .ok_or("the file is sound")?;
    assert_eq!(rt; parts.strings.len(), TEXTS.len());
    for (string, text) in parts.strings.iter().zip(TEXTS) {
        assert_eq!(rt; string.as_slice(), text.as_bytes());
    }
    assert_eq!(rt; parts.types.as_slice(), [0, 1, 2, 3, 7, 8].as_slice());
    assert_eq!(rt; parts.protos.len(), PROTOS.len());
    for (proto, (shorty, result, params)) in parts.protos.iter().zip(PROTOS) {
        assert_eq!(rt; (proto.shorty, proto.result), (shorty, result));
        assert_eq!(rt; proto.params.as_slice(), params);
    }
    let field = FieldId {
        class: 0,
        kind: 2,
        name: 4,
    };
    assert_eq!(rt; parts.fields.as_slice(), [field].as_slice());
    let methods = [method(0, 1, 9), method(0, 0, 5), method(1, 1, 9)];
    assert_eq!(rt; parts.methods.as_slice(), methods.as_slice());
    assert_eq!(rt; parts.units, 2);
    Ok(())
}

#[test]
fn the_class_is_read_back(rt: HostRuntime) -> Result<(), Fail> {
    let parts = read(rt.alloc(), &SUMS, &[])
        .ok()
        .ok_or("the file is sound")?;
    let class = parts.classes.first().ok_or("there is a class")?;
    assert_eq!(rt; (class.kind, class.flags, class.parent), (0, 1, Some(1)));
    assert!(rt; class.interfaces.is_empty() && class.instances.is_empty());
    let field = class.statics.first().ok_or("it has a static field")?;
    assert_eq!(rt; (field.id, field.flags), (0, 9));
    let init = class.directs.first().ok_or("it has a direct method")?;
    assert_eq!(rt; (init.id, init.flags), (0, 0x10001));
    let method = class.virtuals.first().ok_or("it has a virtual method")?;
    assert_eq!(rt; (method.id, method.flags), (1, 1));
    let code = method.code.as_ref().ok_or("it has code")?;
    assert_eq!(rt;
        (code.ins, code.body.registers(), code.body.len()),
        (3, 3, 1)
    );
    Ok(())
}

// The sums of the file whose class has both methods in its list of virtual ones.
const BOTH_SUMS: [u8; 24] = [
    250, 83, 99, 87, 99, 124, 26, 155, 201, 214, 68, 113, 184, 137, 9, 59, 145, 62, 77, 244, 39,
    252, 4, 252,
];

#[test]
fn a_list_of_methods_with_code_is_read(rt: HostRuntime) -> Result<(), Fail> {
    let parts = read(rt.alloc(), &BOTH_SUMS, &[(440, 0), (441, 2)])
        .ok()
        .ok_or("the file is sound")?;
    let class = parts.classes.first().ok_or("there is a class")?;
    assert!(rt; class.directs.is_empty());
    assert_eq!(rt; class.virtuals.len(), 2);
    assert!(rt; class.virtuals.iter().all(|method| method.code.is_some()));
    Ok(())
}

// Bytes put elsewhere, the sums of the file with them, and its first fault.
const FAULTS: [([u8; 24], &[(usize, u8)], FileFault); 10] = [
    (
        [
            230, 84, 215, 12, 157, 76, 60, 165, 248, 137, 104, 226, 144, 29, 29, 242, 111, 204, 90,
            15, 150, 246, 58, 209,
        ],
        &[(493, 1)],
        FileFault::Dex(DexFault::Checksum),
    ),
    (
        [
            229, 84, 245, 10, 156, 76, 60, 165, 248, 137, 104, 226, 144, 29, 29, 242, 111, 204, 90,
            15, 150, 246, 58, 209,
        ],
        &[(12, 156)],
        FileFault::Dex(DexFault::Signature),
    ),
    (
        [
            254, 81, 157, 91, 169, 173, 29, 57, 129, 135, 60, 22, 63, 108, 21, 20, 218, 79, 32,
            164, 70, 111, 6, 242,
        ],
        &[(472, 62)],
        FileFault::Code(0, CodeFault::BadOpcode(0, 62)),
    ),
    (
        [
            13, 86, 199, 209, 212, 145, 106, 34, 123, 222, 46, 104, 114, 246, 161, 179, 209, 117,
            233, 43, 217, 23, 198, 215,
        ],
        &[(492, 62)],
        FileFault::Code(1, CodeFault::BadOpcode(0, 62)),
    ),
    (
        [
            162, 85, 140, 191, 172, 212, 232, 30, 203, 233, 86, 80, 3, 215, 1, 6, 209, 183, 198,
            196, 249, 36, 9, 239,
        ],
        &[(472, 62), (492, 62)],
        FileFault::Code(0, CodeFault::BadOpcode(0, 62)),
    ),
    (
        [
            52, 85, 244, 159, 241, 238, 144, 193, 18, 104, 41, 226, 87, 16, 91, 240, 121, 78, 243,
            170, 200, 73, 79, 174,
        ],
        &[(450, 2)],
        FileFault::Dex(DexFault::MemberIndex(450)),
    ),
    (
        [
            119, 86, 223, 218, 80, 167, 225, 19, 70, 204, 19, 204, 198, 59, 145, 245, 231, 211,
            190, 214, 100, 237, 26, 249,
        ],
        &[(451, 9)],
        FileFault::Code(1, CodeFault::InsSize),
    ),
    (
        [
            158, 86, 226, 66, 227, 163, 168, 200, 235, 83, 225, 215, 102, 189, 165, 89, 105, 9,
            216, 254, 106, 220, 73, 95,
        ],
        &[(478, 4)],
        FileFault::Dex(DexFault::Registers(476)),
    ),
    (
        [
            8, 86, 192, 189, 68, 1, 102, 251, 101, 60, 173, 205, 190, 37, 92, 152, 148, 255, 85,
            140, 237, 162, 236, 246,
        ],
        &[(472, 62), (478, 4)],
        FileFault::Code(0, CodeFault::BadOpcode(0, 62)),
    ),
    (
        [
            26, 87, 53, 77, 87, 170, 190, 172, 240, 209, 73, 64, 90, 139, 176, 133, 255, 113, 206,
            237, 236, 154, 109, 87,
        ],
        &[(453, 127)],
        FileFault::Dex(DexFault::Short(16348)),
    ),
];

#[test]
fn the_first_fault_is_named(rt: HostRuntime) {
    assert_eq!(rt;
        read_dex(rt.alloc(), &[]).err(),
        Some(FileFault::Dex(DexFault::Short(0)))
    );
    for (sums, puts, fault) in &FAULTS {
        assert_eq!(rt;
            read(rt.alloc(), sums, puts).err(),
            Some(*fault),
            "{puts:?}"
        );
    }
}
