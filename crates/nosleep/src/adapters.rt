//! The real outside: files by their paths, and standard output and error. None tells what it holds, so that only
//! tests speak of their content.
ghost use Rattle.std.specs.Prelude.{◌≡◌, ◌≤◌, length, IfOk, None};

use ns_base::{Failed, Shelf, Sink};
use std::alloc::Global;
use std::fs::File;
use std::io::{self, Read, Seek, SeekFrom, Write};
use std::rt::Files;

/// Files by their paths. The one that was read last stays open, so that a pipe can be read in order.
#[derive(Drop)]
pub struct FileShelf<'a, R: Files> {
    files: &'a R,
    alloc: Global,
    open: Option<Opened<R::File>>,
    faults: u64,
}

// An open file and the place of its next byte.
#[derive(Drop)]
struct Opened<F> {
    name: String,
    file: F,
    next: u64,
}

impl<'a, R: Files> FileShelf<'a, R> {
    pub fn new(alloc: Global, files: &'a R) -> Self {
        FileShelf {
            files,
            alloc,
            open: None,
            faults: 0,
        }
    }

    // Reads the front of the buffer full; the count of faults stays.
    fn read_some(&mut self, name: &str, at: u64, into: &mut [u8]) -> io::Result<usize>
        ensures bound { IfOk result (λ count. count ≤ length into.new) }
        ensures faults { self.new.faults ≡ self.old.faults }
    {
        let mut opened = match self.open.take() {
            Some(opened) if opened.name.as_str() == name && opened.next == at => opened,
            _ => self.open_at(name, at)?,
        };
        let count = opened.file.read(into)?;
        opened.next = at.saturating_add(count as u64);
        self.open = Some(opened);
        Ok(count)
    }

    fn open_at(&self, name: &str, at: u64) -> io::Result<Opened<R::File>> {
        let mut file = File::open(self.files, name)?;
        if at > 0 {
            file.seek(SeekFrom::Start(at))?;
        }
        Ok(Opened {
            name: String::from_str(self.alloc, name)?,
            file,
            next: at,
        })
    }
}

impl<R: Files> Shelf for FileShelf<'_, R> {
    ghost content = { λ _ _. None };

    ghost faults = { λ s. s.faults };

    fn read(&mut self, name: &str, at: u64, into: &mut [u8]) -> Result<usize, Failed> {
        match self.read_some(name, at, into) {
            Ok(count) => Ok(count),
            Err(_) => {
                self.faults = self.faults.saturating_add(1);
                Err(Failed)
            }
        }
    }
}

/// What is written to, as standard output. A write that takes nothing of something is a fault.
#[derive(Drop)]
pub struct Output<W> {
    to: W,
    faults: u64,
}

impl<W: Write> Output<W> {
    pub fn new(to: W) -> Self {
        Output { to, faults: 0 }
    }
}

impl<W: Write> Sink for Output<W> {
    ghost taken = { λ _. None };

    ghost faults = { λ s. s.faults };

    fn write(&mut self, piece: &[u8]) -> Result<usize, Failed> {
        match self.to.write(piece) {
            Ok(count) if count > 0 || piece.is_empty() => Ok(count),
            _ => {
                self.faults = self.faults.saturating_add(1);
                Err(Failed)
            }
        }
    }
}
