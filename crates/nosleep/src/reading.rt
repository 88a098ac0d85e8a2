//! Reading a file, piece by piece.
ghost use Rattle.std.specs.Prelude.{◌≡◌, ◌≤◌, ◌<◌, length, vec_len, IfOk};
ghost use Rattle.ns_base.specs.Answers.{limit_of};
ghost use Rattle.nosleep.specs.Reading.{HasTurn, HasEnding, HasReading, KeepsShelf};

use ns_base::{Counted, Failed, Shelf, limit};
use std::alloc::{AllocError, Global};

/// How many bytes one read asks for.
const PIECE: usize = 65_536;

/// What came of reading a file.
#[derive(Drop)]
pub enum Reading {
    /// All its bytes.
    Whole(Vec<u8>),
    /// It has more bytes than the limit allows.
    TooLong,
    /// The shelf failed.
    Fault,
}

/// How a reading ends.
#[derive(Clone, Copy)]
pub enum Ending {
    /// At the file's end.
    Whole,
    /// Past the limit.
    TooLong,
    /// At a failure of the shelf.
    Fault,
}

/// What came of one read.
#[derive(Clone, Copy)]
pub enum Turn {
    /// More bytes; further ones may come.
    More,
    /// The reading ends.
    Last(Ending),
}

/// Reads a file to its end, or until more bytes were taken than its limit allows.
pub fn read_whole<F: Shelf>(
    alloc: Global,
    shelf: &mut F,
    name: &str,
    which: Counted,
) -> Result<Reading, AllocError>
    ensures reading { IfOk result (HasReading which (F.content shelf.old name.now) (F.faults shelf.old) (F.faults shelf.new)) }
    ensures keeps { KeepsShelf F.content F.faults shelf.old shelf.new }
{
    let mut buffer = vec![in alloc; 0u8; PIECE]?;
    let mut bytes = Vec::new(alloc);
    match read_pieces(shelf, name, which, &mut buffer, &mut bytes)? {
        Ending::Whole => Ok(Reading::Whole(bytes)),
        Ending::TooLong => Ok(Reading::TooLong),
        Ending::Fault => Ok(Reading::Fault),
    }
}

// Reads piece after piece into an empty list of bytes.
fn read_pieces<F: Shelf>(
    shelf: &mut F,
    name: &str,
    which: Counted,
    buffer: &mut [u8],
    bytes: &mut Vec<u8>,
) -> Result<Ending, AllocError>
    requires room { 0 < length buffer.old }
    requires empty { vec_len bytes.old ≡ 0 }
    ensures ending { IfOk result (HasEnding which (F.content shelf.old name.now) bytes.new.items (F.faults shelf.old) (F.faults shelf.new)) }
    ensures keeps { KeepsShelf F.content F.faults shelf.old shelf.new }
{
    loop {
        if let Turn::Last(ending) = read_turn(shelf, name, which, buffer, bytes)? {
            return Ok(ending);
        }
    }
}

// One read, whose bytes are added to those before.
fn read_turn<F: Shelf>(
    shelf: &mut F,
    name: &str,
    which: Counted,
    buffer: &mut [u8],
    bytes: &mut Vec<u8>,
) -> Result<Turn, AllocError>
    requires room { 0 < length buffer.old }
    requires below { vec_len bytes.old ≤ limit_of which }
    ensures turn { IfOk result (HasTurn which (F.content shelf.old name.now) bytes.old.items bytes.new.items (F.faults shelf.old) (F.faults shelf.new)) }
    ensures keeps { KeepsShelf F.content F.faults shelf.old shelf.new }
{
    match shelf.read(name, bytes.len() as u64, buffer) {
        Err(Failed) => Ok(Turn::Last(Ending::Fault)),
        Ok(0) => Ok(Turn::Last(Ending::Whole)),
        Ok(count) => {
            let (front, _) = buffer.split_at(count);
            bytes.extend_from_slice(front)?;
            if bytes.len() as u64 > limit(which) {
                Ok(Turn::Last(Ending::TooLong))
            } else {
                Ok(Turn::More)
            }
        }
    }
}
