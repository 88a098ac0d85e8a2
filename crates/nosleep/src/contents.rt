//! Reading the contents of DEX files.
ghost use Rattle.std.specs.Prelude.{◌≤◌, length, map, IfOk};
ghost use Rattle.nosleep.specs.Files.{AreSmall};
ghost use Rattle.nosleep.specs.Outcome.{CanBeLinked, HasContents};

use dex_file::{DexParts, FileFault, read_dex};
use std::alloc::{AllocError, Global};

/// What came of reading the contents of files.
#[derive(Drop)]
pub enum Contents {
    /// The content of each.
    Read(Vec<DexParts>),
    /// The file of this number has this fault.
    Bad(u32, FileFault),
}

/// Reads the files in order, until one has a fault.
pub fn read_contents(alloc: Global, files: &[Vec<u8>]) -> Result<Contents, AllocError>
    requires few { length files.now ≤ 16 }
    requires short { AreSmall files.now }
    ensures contents { IfOk result (HasContents (map (λ bytes. bytes.items) files.now)) }
    ensures linked { IfOk result CanBeLinked }
{
    let mut parts = Vec::with_capacity(alloc, files.len())?;
    for i in 0..files.len() {
        match read_dex(alloc, &files[i]) {
            Ok(content) => parts.push(content)?,
            Err(fault) => return Ok(Contents::Bad(i as u32, fault)),
        }
    }
    Ok(Contents::Read(parts))
}
