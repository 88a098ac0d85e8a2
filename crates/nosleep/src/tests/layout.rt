//! Small DEX files, laid out plainly: the header, the six id tables, type lists, texts, the class data and
//! one code item.
use dex_bytes::adler32;
use sha1::Sha1;
use std::alloc::{AllocError, Global};

/// A class with static locks, all named `wl`, and `onReceive`, in so many class rows, of which the first has the
/// members.
#[derive(Clone, Copy)]
pub struct Class {
    pub name: &'static str,
    pub parent: &'static str,
    /// What stands behind the code's units: the row of a try and its handler, or nothing.
    pub tail: &'static [u8],
    pub rows: u32,
    /// How many locks, at most 127.
    pub locks: u8,
    /// The method's access flags, as uleb128.
    pub flags: &'static [u8],
    pub has_code: bool,
}

const REGISTERS: u16 = 6;

// The strings behind the names of the class and its parent.
const STRINGS: [&str; 22] = [
    "Landroid/os/PowerManager$WakeLock;",
    "wl",
    "V",
    "Landroid/content/Context;",
    "Landroid/content/Intent;",
    "VLL",
    "onReceive",
    "power",
    "Ljava/lang/String;",
    "Ljava/lang/Object;",
    "LL",
    "getSystemService",
    "Landroid/os/PowerManager;",
    "t",
    "I",
    "LIL",
    "newWakeLock",
    "acquire",
    "release",
    "Ljava/lang/System;",
    "gc",
    "Ljava/lang/Exception;",
];

const TYPES: [u32; 12] = [0, 1, 2, 4, 5, 6, 10, 11, 14, 16, 21, 23];

const PROTOS: [(u32, u32, &[u16]); 4] = [
    (7, 3, &[4, 5]),
    (12, 7, &[6]),
    (17, 2, &[9, 6]),
    (4, 3, &[]),
];

// The class, type and name of each lock.
const LOCK: (u16, u16, u32) = (0, 2, 3);

const METHODS: [(u16, u16, u32); 6] = [
    (0, 0, 8),
    (4, 1, 13),
    (8, 2, 18),
    (2, 3, 19),
    (2, 3, 20),
    (10, 3, 22),
];

// Where the class rows begin, but for the rows of fields.
const ROWS: u32 = 112 + 4 * 24 + 4 * 12 + 12 * 4 + 8 * 6;

// Bytes with numbers put behind them, and their place in the file.
#[derive(Drop)]
struct Bytes {
    bytes: Vec<u8>,
    start: u32,
}

impl Bytes {
    fn u16(&mut self, value: u16) -> Result<(), AllocError> {
        self.bytes.extend_from_slice(&value.to_le_bytes())
    }

    fn u32(&mut self, value: u32) -> Result<(), AllocError> {
        self.bytes.extend_from_slice(&value.to_le_bytes())
    }

    // The place in the file of the next byte.
    fn here(&self) -> u32 {
        self.start
            .wrapping_add(u32::try_from(self.bytes.len()).unwrap_or(0))
    }

    fn align(&mut self) -> Result<(), AllocError> {
        for _ in 0..(4 - self.bytes.len() % 4) % 4 {
            self.bytes.push(0)?;
        }
        Ok(())
    }
}

/// The file of this class, with the units of these parts one after the other as its code.
pub fn dex(alloc: Global, class: &Class, parts: &[&[u16]]) -> Result<Vec<u8>, AllocError> {
    let mut data = Bytes {
        bytes: Vec::new(alloc),
        start: ROWS
            .wrapping_add(u32::from(class.locks).wrapping_mul(8))
            .wrapping_add(class.rows.wrapping_mul(32)),
    };
    let lists = type_lists(alloc, &mut data)?;
    let texts = texts(alloc, &mut data, class)?;
    let members = data.here();
    class_data(&mut data, class)?;
    if class.has_code {
        code_item(alloc, &mut data, class, parts)?;
    }
    let mut tail = Bytes {
        bytes: Vec::new(alloc),
        start: 32,
    };
    header(&mut tail, data.here(), class)?;
    ids(&mut tail, &lists, &texts, class.locks)?;
    class_rows(&mut tail, class.rows, members)?;
    tail.bytes.extend_from_slice(&data.bytes)?;
    sealed(alloc, &tail.bytes)
}

fn type_lists(alloc: Global, data: &mut Bytes) -> Result<Vec<u32>, AllocError> {
    let mut places = Vec::new(alloc);
    for (_, _, params) in PROTOS {
        if params.is_empty() {
            places.push(0)?;
            continue;
        }
        data.align()?;
        places.push(data.here())?;
        data.u32(u32::try_from(params.len()).unwrap_or(0))?;
        for kind in params {
            data.u16(*kind)?;
        }
    }
    Ok(places)
}

fn texts(alloc: Global, data: &mut Bytes, class: &Class) -> Result<Vec<u32>, AllocError> {
    let mut places = Vec::new(alloc);
    for text in [class.name, class.parent].iter().chain(STRINGS.iter()) {
        places.push(data.here())?;
        data.bytes.push(u8::try_from(text.len()).unwrap_or(0))?;
        data.bytes.extend_from_slice(text.as_bytes())?;
        data.bytes.push(0)?;
    }
    Ok(places)
}

// The static fields (flags 9) and one virtual method, whose code follows.
fn class_data(data: &mut Bytes, class: &Class) -> Result<(), AllocError> {
    data.bytes.extend_from_slice(&[class.locks, 0, 0, 1])?;
    for lock in 0..class.locks {
        data.bytes.extend_from_slice(&[u8::from(lock > 0), 9])?;
    }
    data.bytes.push(0)?;
    data.bytes.extend_from_slice(class.flags)?;
    if !class.has_code {
        data.bytes.push(0)?;
        return Ok(());
    }
    let code = data.here().wrapping_add(2).wrapping_add(3) / 4 * 4;
    let low = (code % 128) as u8;
    let high = u8::try_from(code / 128).unwrap_or(0);
    data.bytes
        .extend_from_slice(&[low.wrapping_add(128), high])?;
    data.align()
}

fn code_item(
    alloc: Global,
    data: &mut Bytes,
    class: &Class,
    parts: &[&[u16]],
) -> Result<(), AllocError> {
    let tries = u16::from(!class.tail.is_empty());
    for front in [REGISTERS, 3, 255, tries] {
        data.u16(front)?;
    }
    data.u32(0)?;
    let units: Vec<u16> = parts.concat(alloc)?;
    data.u32(u32::try_from(units.len()).unwrap_or(0))?;
    for unit in &units {
        data.u16(*unit)?;
    }
    if tries != 0 {
        data.align()?;
    }
    data.bytes.extend_from_slice(class.tail)
}

// The header from the file size on.
fn header(tail: &mut Bytes, size: u32, class: &Class) -> Result<(), AllocError> {
    for number in [size, 112, 0x1234_5678, 0, 0, 0] {
        tail.u32(number)?;
    }
    let locks = u32::from(class.locks);
    let mut off = 112u32;
    for (rows, width) in [
        (24u32, 4u32),
        (12, 4),
        (4, 12),
        (locks, 8),
        (6, 8),
        (class.rows, 32),
    ] {
        tail.u32(rows)?;
        tail.u32(off)?;
        off = off.wrapping_add(rows.wrapping_mul(width));
    }
    tail.u32(0)?;
    tail.u32(0)
}

fn ids(tail: &mut Bytes, lists: &[u32], texts: &[u32], locks: u8) -> Result<(), AllocError> {
    for text in texts {
        tail.u32(*text)?;
    }
    for name in TYPES {
        tail.u32(name)?;
    }
    for ((shorty, result, _), list) in PROTOS.iter().zip(lists) {
        tail.u32(*shorty)?;
        tail.u32(*result)?;
        tail.u32(*list)?;
    }
    for _ in 0..locks {
        tail.u16(LOCK.0)?;
        tail.u16(LOCK.1)?;
        tail.u32(LOCK.2)?;
    }
    for (class, proto, name) in METHODS {
        tail.u16(class)?;
        tail.u16(proto)?;
        tail.u32(name)?;
    }
    Ok(())
}

fn class_rows(tail: &mut Bytes, rows: u32, members: u32) -> Result<(), AllocError> {
    for row in 0..rows {
        let members = if row == 0 { members } else { 0 };
        for number in [0, 1, 1, 0, 0xffff_ffff, 0, members, 0] {
            tail.u32(number)?;
        }
    }
    Ok(())
}

// Magic, Adler-32 and SHA-1 in front of the rest.
fn sealed(alloc: Global, tail: &[u8]) -> Result<Vec<u8>, AllocError> {
    let digest = Sha1::digest(tail);
    let mut signed = digest.to_vec(alloc)?;
    signed.extend_from_slice(tail)?;
    let mut file = b"dex\n035\0".to_vec(alloc)?;
    file.extend_from_slice(&adler32(&signed).to_le_bytes())?;
    file.extend_from_slice(&signed)?;
    Ok(file)
}
