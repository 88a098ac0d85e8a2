//! Reading the files of a form.
ghost use Rattle.std.specs.Prelude.{◌≡◌, ◌≤◌, ◌++◌, length, map, string_bytes, vec_len, IfOk};
ghost use Rattle.nosleep.specs.Asked.{form_by};
ghost use Rattle.nosleep.specs.Reading.{KeepsShelf};
ghost use Rattle.nosleep.specs.Taking.{HasTaken};
ghost use Rattle.nosleep.specs.Words.{dex_file, files_of, list_file};

use crate::reading::{Reading, read_whole};
use crate::words::Asked;
use ns_base::{Counted, Event, Shelf};
use std::alloc::{AllocError, Global};
use std::marker::Model;

/// A file that is read: its name, and what the limit of its bytes is.
#[derive(Drop)]
pub struct FileName<'a> {
    pub name: &'a str,
    pub limit: Counted,
}

impl<'a> Model for FileName<'a> {
    ghost use Rattle.nosleep.specs.Words.{FileName};

    ghost Value = { FileName };

    ghost view = { λ f. record { name = f.name.now; limit = f.limit } };
}

/// What came of reading files one after another.
#[derive(Drop)]
pub enum Taken {
    /// The bytes of each.
    Whole(Vec<Vec<u8>>),
    /// The file of this number has more bytes than its limit allows.
    TooLong(usize),
    /// The shelf failed at the file of this number.
    Fault(usize),
}

fn list_file(name: &str) -> FileName<'_>
    ensures { result ≡ list_file name.now }
{
    FileName {
        name,
        limit: Counted::ListBytes,
    }
}

// Adds the DEX files.
fn push_dex_names<'a>(names: &mut Vec<FileName<'a>>, files: &'a [String]) -> Result<(), AllocError>
    ensures { IfOk result (λ _. names.new.items ≡ names.old.items ++ map dex_file (map string_bytes files.now)) }
{
    for i in 0..files.len() {
        names.push(FileName {
            name: files[i].as_str(),
            limit: Counted::FileBytes,
        })?;
    }
    Ok(())
}

/// The files of a form, in the order in which they are read.
pub fn names_of<'a>(alloc: Global, asked: Asked<'a>) -> Result<Vec<FileName<'a>>, AllocError>
    ensures { IfOk result (λ names. names.items ≡ files_of (form_by asked.entry)) }
{
    let mut names = Vec::new(alloc);
    match asked {
        Asked::Receiver { dex, .. } => names.push(FileName {
            name: dex,
            limit: Counted::FileBytes,
        })?,
        Asked::Verify { list, files } => {
            names.push(list_file(list))?;
            push_dex_names(&mut names, files)?;
        }
        Asked::Check { cert, list, files } => {
            names.push(FileName {
                name: cert,
                limit: Counted::CertBytes,
            })?;
            names.push(list_file(list))?;
            push_dex_names(&mut names, files)?;
        }
    }
    Ok(names)
}

/// Reads the files in order, until one fails or is too long. Each that was read whole is an event.
pub fn take_files<F: Shelf>(
    alloc: Global,
    shelf: &mut F,
    names: &[FileName<'_>],
    events: &mut Vec<Event>,
) -> Result<Taken, AllocError>
    requires few { length names.now ≤ 18 }
    requires none { vec_len events.old ≡ 0 }
    ensures taken { IfOk result (HasTaken (F.content shelf.old) names.now (F.faults shelf.old) (F.faults shelf.new) events.new.items) }
    ensures keeps { KeepsShelf F.content F.faults shelf.old shelf.new }
{
    let mut all = Vec::new(alloc);
    for i in 0..names.len() {
        let file = &names[i];
        match read_whole(alloc, shelf, file.name, file.limit)? {
            Reading::Whole(bytes) => {
                events.push(Event::Read {
                    file: i as u32,
                    bytes: bytes.len() as u64,
                })?;
                all.push(bytes)?;
            }
            Reading::TooLong => return Ok(Taken::TooLong(i)),
            Reading::Fault => return Ok(Taken::Fault(i)),
        }
    }
    Ok(Taken::Whole(all))
}
