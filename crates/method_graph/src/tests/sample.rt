//! A small file: the id tables of a receiver that takes a wake lock, and one code item at the end.
use crate::build_graph;
use dalvik::Body;
use dalvik_decode::CodeFault;
use dex_bytes::header_from;
use dex_code::read_code;
use dex_tables::read_tables;
use std::alloc::{AllocError, Global};

/// A code item. The rows of its tries and their handlers stand behind the units as bytes, padding in front.
#[derive(Drop)]
pub struct Code {
    pub registers: u16,
    pub ins: u16,
    pub tries: u16,
    pub units: &'static [u16],
    pub tail: &'static [u8],
}

const TEXTS: [&[u8]; 26] = [
    b"Lapp/R;",
    b"Landroid/content/BroadcastReceiver;",
    b"Landroid/os/PowerManager$WakeLock;",
    b"wl",
    b"V",
    b"Landroid/content/Context;",
    b"Landroid/content/Intent;",
    b"VLL",
    b"onReceive",
    b"power",
    b"Ljava/lang/String;",
    b"Ljava/lang/Object;",
    b"LL",
    b"getSystemService",
    b"Landroid/os/PowerManager;",
    b"t",
    b"I",
    b"LIL",
    b"newWakeLock",
    b"acquire",
    b"release",
    b"Ljava/lang/System;",
    b"gc",
    b"Ljava/lang/Exception;",
    b"Ljava/lang/Throwable;",
    b"J",
];

// The tables of the file, each with its size and its offset: strings, types, protos, fields, methods,
// classes.
const TABLES: [(u32, u32); 6] = [(26, 112), (14, 216), (5, 272), (1, 332), (7, 340), (1, 396)];

// The rows behind those of the strings, up to the texts. A number of 16 bits is half a word.
const ROWS: [u32; 62] = [
    0,
    1,
    2,
    4,
    5,
    6,
    10,
    11,
    14,
    16,
    21,
    23,
    24,
    25, // types
    7,
    3,
    428, // protos: (Context, Intent)V
    12,
    7,
    436, // (String)Object
    17,
    2,
    444, // (I, String)WakeLock
    4,
    3,
    0, // ()V
    4,
    3,
    452, // (J, V, I)V
    0x0002_0000,
    3, // fields: wl
    0x0000_0000,
    8, // methods: onReceive
    0x0001_0004,
    13, // getSystemService
    0x0002_0008,
    18, // newWakeLock
    0x0003_0002,
    19, // acquire
    0x0003_0002,
    20, // release
    0x0003_000a,
    22, // gc
    0x0004_0000,
    15, // t, of the last proto
    0,
    1,
    1,
    0,
    0xffff_ffff,
    0,
    0,
    0, // classes
    2,
    0x0005_0004, // type lists
    1,
    6, //
    2,
    0x0006_0009, //
    3,
    0x0003_000d,
    9, //
];

// Where the texts stand.
const DATA: u32 = 464;

fn word(number: usize) -> u32 {
    u32::try_from(number).unwrap_or(0)
}

fn put(file: &mut Vec<u8>, number: u32) -> Result<(), AllocError> {
    file.extend_from_slice(&number.to_le_bytes())
}

fn put_half(file: &mut Vec<u8>, number: u16) -> Result<(), AllocError> {
    file.extend_from_slice(&number.to_le_bytes())
}

fn put_tables(file: &mut Vec<u8>) -> Result<(), AllocError> {
    for (size, off) in TABLES {
        put(file, size)?;
        put(file, off)?;
    }
    put(file, 0)?;
    put(file, 0)?;
    let mut at = DATA;
    for text in TEXTS {
        put(file, at)?;
        at = at.wrapping_add(word(text.len())).wrapping_add(2);
    }
    for word in ROWS {
        put(file, word)?;
    }
    Ok(())
}

fn put_texts(file: &mut Vec<u8>) -> Result<(), AllocError> {
    for text in TEXTS {
        file.push(u8::try_from(text.len()).unwrap_or(0))?;
        file.extend_from_slice(text)?;
        file.push(0)?;
    }
    Ok(())
}

fn put_code(file: &mut Vec<u8>, code: &Code) -> Result<(), AllocError> {
    for number in [code.registers, code.ins, 0, code.tries, 0, 0] {
        put_half(file, number)?;
    }
    put(file, word(code.units.len()))?;
    for unit in code.units {
        put_half(file, *unit)?;
    }
    file.extend_from_slice(code.tail)
}

// The file up to the code item.
fn front(alloc: Global) -> Result<Vec<u8>, AllocError> {
    let mut file = vec![in alloc; 0_u8; 56]?;
    put_tables(&mut file)?;
    put_texts(&mut file)?;
    Ok(file)
}

/// The graph of a method of the file with these flags and this code, and no memory where the file is not sound.
pub fn graph(alloc: Global, method: u32, flags: u32, code: &Code) -> Result<Body, CodeFault> {
    let mut file = front(alloc)?;
    let off = word(file.len());
    put_code(&mut file, code)?;
    if file.len() < 112 || file.len() > 0xffff_ffff {
        return Err(CodeFault::Memory);
    }
    let Ok(tables) = read_tables(alloc, &file, &header_from(&file)) else {
        return Err(CodeFault::Memory);
    };
    let Ok(item) = read_code(alloc, &file, &tables, off) else {
        return Err(CodeFault::Memory);
    };
    if method as usize >= tables.methods.len() {
        return Err(CodeFault::Memory);
    }
    build_graph(alloc, &file, &tables, method, flags, &item)
}
