//! What the lines of a certificate tell.
use std::marker::Model;

/// The statuses that a lock field may have while a component is in a state of its lifecycle at an idle
/// moment, as a mask.
#[derive(Clone, Copy, Debug, PartialEq, Eq)]
pub struct ViewRow {
    pub component: u32,
    pub state: u8,
    pub mask: u8,
}

/// The facts of a method that was entered at a status: the statuses at which it returns, those at which a
/// throw leaves it, and those before each of its instructions, as masks.
#[derive(Drop)]
pub struct BodyRow {
    pub method: u32,
    pub entry: u8,
    pub ret: u8,
    pub exc: u8,
    pub masks: Vec<u8>,
}

impl Model for BodyRow {
    ghost use Rattle.cert_line.specs.Parts.{BodyParts};

    ghost Value = { BodyParts };

    ghost view = { λ b. record { method = b.method; entry = b.entry; ret = b.ret; exc = b.exc; masks = b.masks.items } };
}

/// The number of a lock field among the parts of a certificate, and its shown name.
#[derive(Drop)]
pub struct LockName {
    pub number: u64,
    pub shown: Vec<u8>,
}

impl Model for LockName {
    ghost use Rattle.cert_line.specs.Parts.{NameParts};

    ghost Value = { NameParts };

    ghost view = { λ n. record { number = n.number; shown = n.shown.items } };
}

/// A line of a certificate.
#[derive(Drop)]
pub enum Line {
    /// The first line: the name of the format and its version.
    Version,
    /// The digest of the component list.
    ListDigest([u8; 20]),
    /// The digest of the next DEX file.
    DexDigest([u8; 20]),
    /// The next lock field, whose rows follow.
    Lock(LockName),
    View(ViewRow),
    Body(BodyRow),
    End,
}
