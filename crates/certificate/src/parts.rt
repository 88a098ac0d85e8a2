//! A certificate, and why a text is none.
use cert_line::{BodyRow, ViewRow};
use std::marker::Model;
use thiserror::Error;

/// The facts of one lock field, with its shown name. A view row tells of a component in a state, a body row of
/// a method that was entered at a status.
#[derive(Drop)]
pub struct LockPart {
    pub name: Vec<u8>,
    pub views: Vec<ViewRow>,
    pub bodies: Vec<BodyRow>,
}

impl Model for LockPart {
    ghost use Rattle.certificate.specs.Parts.{LockRows};

    ghost Value = { LockRows };

    ghost view = { λ p. record { name = p.name.items; views = p.views.items; bodies = p.bodies.items } };
}

/// The digests of what was read, and the facts of each lock field.
#[derive(Drop)]
pub struct Certificate {
    pub list: [u8; 20],
    pub dex: Vec<[u8; 20]>,
    pub locks: Vec<LockPart>,
}

impl Model for Certificate {
    ghost use Rattle.certificate.specs.Parts.{CertParts};

    ghost Value = { CertParts };

    ghost view = { λ c. record { list = c.list; dex = c.dex.items; locks = c.locks.items } };
}

/// Why a text is no certificate.
#[derive(Debug, Drop, Error)]
pub enum CertFault {
    /// The first wrong line, counted from 1; where the text ends too early, the line that is missing or unfinished.
    #[error("line {0} is wrong")]
    Line(u64),
    #[error("out of memory")]
    Memory,
}
