//! The lines of all answers but reports, and names as they are shown.
ghost use Rattle.std.specs.Prelude.{◌≡◌, ◌+◌, ◌++◌, ◌<◌, length, IfOk, Ok};
ghost use Rattle.report_text.specs.Texts as spec;
ghost use Rattle.report_text.specs.Texts.{cannot_read_text};

use app_model::push_shown;
use ns_base::OutOfMemory;
use std::alloc::{AllocError, Global};

/// All forms of the command line.
pub fn usage_text(alloc: Global) -> Result<Vec<u8>, OutOfMemory>
    ensures { IfOk result (λ text. text.items ≡ spec.usage_text) }
{
    let lines = b"usage: nosleep receiver [--json] [--count] DEX CLASS
       nosleep verify [--json] [--count] LIST DEX...
       nosleep check [--json] [--count] CERT LIST DEX...
       nosleep demo N
";
    or_starved(lines.to_vec(alloc))
}

/// The rules derive no violation.
pub fn accept_text(alloc: Global) -> Result<Vec<u8>, OutOfMemory>
    ensures { IfOk result (λ text. text.items ≡ spec.accept_text) }
{
    or_starved(b"accept\n".to_vec(alloc))
}

/// A text, or want of memory.
pub fn or_starved(text: Result<Vec<u8>, AllocError>) -> Result<Vec<u8>, OutOfMemory>
    ensures { IfOk result (λ done. text ≡ Ok done) }
{
    match text {
        Ok(text) => Ok(text),
        Err(AllocError) => Err(OutOfMemory),
    }
}

/// A file could not be read.
pub fn cannot_read(alloc: Global, name: &str) -> Result<Vec<u8>, AllocError>
    ensures { IfOk result (λ text. text.items ≡ cannot_read_text name.now) }
{
    let mut text = b"cannot read ".to_vec(alloc)?;
    push_shown(&mut text, name.as_bytes())?;
    text.push(b'\n')?;
    Ok(text)
}
