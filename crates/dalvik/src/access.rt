//! Access flags of classes, fields and methods under the names of the format page.

pub const STATIC: u32 = 0x8;

pub const NATIVE: u32 = 0x100;

pub const ABSTRACT: u32 = 0x400;
