//! Each call on vectors from outside: numbers and texts from the rules of the format, the sums from
//! Python's zlib and hashlib.
use crate::{DexFault, Header, Part, adler32, mutf8, read_header, sleb, uleb};
use std::test::Fail;

#[test]
fn numbers_are_read_with_the_place_after_them(rt: HostRuntime) {
    let unsigned: &[(&[u8], Result<(u32, usize), DexFault>)] = &[
        (&[0x00], Ok((0, 1))),
        (&[0x7f], Ok((127, 1))),
        (&[0x80, 0x01], Ok((128, 2))),
        (&[0xac, 0x02], Ok((300, 2))),
        (&[0x80, 0x00], Ok((0, 2))),
        (&[0xff, 0xff, 0xff, 0xff, 0x0f], Ok((4_294_967_295, 5))),
        (&[0xff, 0xff, 0xff, 0xff, 0x10], Err(DexFault::Leb(0))),
        (&[0xff, 0xff, 0xff, 0xff, 0x80, 0x00], Err(DexFault::Leb(0))),
        (&[0x80], Err(DexFault::Short(0))),
        (&[0x80, 0x80, 0x80, 0x80], Err(DexFault::Short(0))),
        (&[], Err(DexFault::Short(0))),
    ];
    for (bytes, wanted) in unsigned {
        assert_eq!(rt; uleb(bytes, 0), *wanted, "{bytes:?}");
    }
    let signed: &[(&[u8], Result<(i32, usize), DexFault>)] = &[
        (&[0x00], Ok((0, 1))),
        (&[0x3f], Ok((63, 1))),
        (&[0x40], Ok((-64, 1))),
        (&[0x7f], Ok((-1, 1))),
        (&[0x80, 0x7f], Ok((-128, 2))),
        (&[0xff, 0xff, 0x3f], Ok((1_048_575, 3))),
        (&[0x80, 0x80, 0x40], Ok((-1_048_576, 3))),
        (&[0xff, 0xff, 0xff, 0x7f], Ok((-1, 4))),
        (&[0xff, 0xff, 0xff, 0xff, 0x07], Ok((2_147_483_647, 5))),
        (&[0x80, 0x80, 0x80, 0x80, 0x08], Ok((-2_147_483_648, 5))),
        (&[0x80, 0x80, 0x80, 0x80, 0x78], Ok((-2_147_483_648, 5))),
        (&[0x81, 0x80, 0x80, 0x80, 0x70], Ok((1, 5))),
        (&[0xff, 0xff, 0xff, 0xff, 0x80], Err(DexFault::Leb(0))),
        (&[0xff, 0xff], Err(DexFault::Short(0))),
        (&[], Err(DexFault::Short(0))),
    ];
    for (bytes, wanted) in signed {
        assert_eq!(rt; sleb(bytes, 0), *wanted, "{bytes:?}");
    }
    assert_eq!(rt; uleb(&[0xff, 0x80, 0x01], 1), Ok((128, 3)));
    assert_eq!(rt; sleb(&[0x00, 0xff], 1), Err(DexFault::Short(1)));
}

#[test]
fn texts_end_at_their_zero_byte(rt: HostRuntime) {
    let texts: &[(&[u8], u32, Result<usize, DexFault>)] = &[
        (&[0x00], 0, Ok(0)),
        (b"A\0", 1, Ok(1)),
        (&[0xc0, 0x80, 0x00], 1, Ok(2)),
        (&[0xc3, 0xa9, 0x00], 1, Ok(2)),
        (&[0xe2, 0x82, 0xac, 0x00], 1, Ok(3)),
        (&[0xed, 0xa0, 0xbd, 0xed, 0xb8, 0x80, 0x00], 2, Ok(6)),
        (&[0x7f, 0xdf, 0xbf, 0xef, 0xbf, 0xbf, 0x00, 0xff], 3, Ok(6)),
        // a unit too few, a unit too many
        (b"A\0", 2, Err(DexFault::Mutf8(1))),
        (b"AB\0", 1, Err(DexFault::Mutf8(1))),
        // bytes that begin no unit, or go on none
        (&[0x80, 0x00], 1, Err(DexFault::Mutf8(0))),
        (&[0xbf, 0x00], 1, Err(DexFault::Mutf8(0))),
        (&[0xf0, 0x9f, 0x98, 0x80, 0x00], 2, Err(DexFault::Mutf8(0))),
        (&[0x41, 0xc3, 0x41, 0x00], 2, Err(DexFault::Mutf8(2))),
        (&[0xc3, 0xc3, 0x00], 1, Err(DexFault::Mutf8(1))),
        (&[0xe2, 0x82, 0x00], 1, Err(DexFault::Mutf8(2))),
        (&[0xe2, 0x00], 1, Err(DexFault::Mutf8(1))),
        // a cut in each
        (&[], 0, Err(DexFault::Short(0))),
        (&[], 1, Err(DexFault::Short(0))),
        (b"A", 1, Err(DexFault::Short(0))),
        (&[0xc3], 1, Err(DexFault::Short(0))),
        (&[0xe2], 1, Err(DexFault::Short(0))),
        (&[0xe2, 0x82], 1, Err(DexFault::Short(0))),
        (&[0xed, 0xa0, 0xbd, 0xed, 0xb8], 2, Err(DexFault::Short(0))),
    ];
    for (bytes, units, wanted) in texts {
        assert_eq!(rt; mutf8(bytes, 0, *units), *wanted, "{bytes:?} {units}");
    }
    assert_eq!(rt; mutf8(b"zAB\0", 1, 2), Ok(3));
    assert_eq!(rt; mutf8(b"zAB", 1, 2), Err(DexFault::Short(1)));
}

#[test]
fn adler_32_goes_on_past_a_block(rt: HostRuntime) -> Result<(), Fail> {
    assert_eq!(rt; adler32(b""), 0x0000_0001);
    assert_eq!(rt; adler32(b"abc"), 0x024d_0127);
    let sums: &[(usize, u32)] = &[
        (1, 0x0100_0100),
        (5551, 0x5603_9a8d),
        (5552, 0xf18f_9b8c),
        (5553, 0x8e29_9c8b),
        (11104, 0xff6f_3726),
        (11105, 0x37a3_3825),
        (20000, 0x9f51_d664),
    ];
    for (len, wanted) in sums {
        let bytes = vec![in rt.alloc(); 0xff_u8; *len]?;
        assert_eq!(rt; adler32(&bytes), *wanted, "{len} bytes");
    }
    Ok(())
}

// A header with a number of its own in each field, and the data of one string.
const SAMPLE: [u8; 120] = [
    0x64, 0x65, 0x78, 0x0a, 0x30, 0x33, 0x35, 0x00, 0x81, 0x0d, 0x9e, 0x71, 0x32, 0xeb, 0x3c, 0x01,
    0xc0, 0x22, 0x7a, 0xba, 0x66, 0x70, 0x30, 0x53, 0xa4, 0x2d, 0xfb, 0xc1, 0x8c, 0xe2, 0x67, 0x3d,
    0x78, 0x00, 0x00, 0x00, 0x70, 0x00, 0x00, 0x00, 0x78, 0x56, 0x34, 0x12, 0x00, 0x00, 0x00, 0x00,
    0x00, 0x00, 0x00, 0x00, 0x00, 0x00, 0x00, 0x00, 0x01, 0x00, 0x00, 0x00, 0x70, 0x00, 0x00, 0x00,
    0x02, 0x00, 0x00, 0x00, 0x12, 0x01, 0x00, 0x00, 0x03, 0x00, 0x00, 0x00, 0x13, 0x01, 0x00, 0x00,
    0x04, 0x00, 0x00, 0x00, 0x14, 0x01, 0x00, 0x00, 0x05, 0x00, 0x00, 0x00, 0x15, 0x01, 0x00, 0x00,
    0x06, 0x00, 0x00, 0x00, 0x16, 0x01, 0x00, 0x00, 0x08, 0x00, 0x00, 0x00, 0x70, 0x00, 0x00, 0x00,
    0x74, 0x00, 0x00, 0x00, 0x01, 0x41, 0x00, 0x00,
];

#[test]
fn the_first_check_that_fails_is_the_fault(rt: HostRuntime) {
    let header = Header {
        strings: Part { size: 1, off: 0x70 },
        types: Part {
            size: 2,
            off: 0x0112,
        },
        protos: Part {
            size: 3,
            off: 0x0113,
        },
        fields: Part {
            size: 4,
            off: 0x0114,
        },
        methods: Part {
            size: 5,
            off: 0x0115,
        },
        classes: Part {
            size: 6,
            off: 0x0116,
        },
    };
    assert_eq!(rt; read_header(&SAMPLE), Ok(header));
    for len in 0..SAMPLE.len() {
        let fault = if len < 112 {
            DexFault::Short(0)
        } else {
            DexFault::FileSize
        };
        assert_eq!(rt; read_header(&SAMPLE[..len]), Err(fault), "cut at {len}");
    }
    // places with other bytes there
    let changes: &[(&[(usize, u8)], DexFault)] = &[
        (&[(0, b'D')], DexFault::Magic),
        (&[(3, 0)], DexFault::Magic),
        (&[(7, 1)], DexFault::Magic),
        (&[(7, 1), (5, b'4')], DexFault::Magic),
        (&[(4, b'1')], DexFault::Version),
        (&[(5, b'4')], DexFault::Version),
        (&[(6, b'7')], DexFault::Version),
        (&[(6, b'7'), (36, 0)], DexFault::Version),
        (&[(36, 0x71)], DexFault::HeaderSize),
        (&[(39, 1)], DexFault::HeaderSize),
        (&[(39, 1), (40, 0)], DexFault::HeaderSize),
        (
            &[(40, 0x12), (41, 0x34), (42, 0x56), (43, 0x78)],
            DexFault::Endian,
        ),
        (&[(43, 0), (32, 0)], DexFault::Endian),
        (&[(32, 0x77)], DexFault::FileSize),
        (&[(35, 1)], DexFault::FileSize),
        (&[(35, 1), (8, 0)], DexFault::FileSize),
        (&[(8, 0)], DexFault::Checksum),
        (&[(11, 0)], DexFault::Checksum),
        (&[(12, 0)], DexFault::Checksum),
        (&[(31, 0)], DexFault::Checksum),
        (&[(44, 1)], DexFault::Checksum),
        (&[(56, 2)], DexFault::Checksum),
        (&[(104, 9)], DexFault::Checksum),
        (&[(119, 1)], DexFault::Checksum),
        // with the checksum of these bytes
        (
            &[(117, 0x43), (8, 0x83), (9, 0x0d), (10, 0xa4), (11, 0x71)],
            DexFault::Signature,
        ),
        (
            &[(12, 0x33), (8, 0x82), (9, 0x0d), (10, 0x0a), (11, 0x72)],
            DexFault::Signature,
        ),
    ];
    for (places, fault) in changes {
        let mut file = SAMPLE;
        for (at, byte) in *places {
            assert!(rt; *at < file.len());
            file[*at] = *byte;
        }
        assert_eq!(rt; read_header(&file), Err(*fault), "{places:?}");
    }
}
