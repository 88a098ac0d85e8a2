//! Answers, and those to what is refused.
ghost use Rattle.std.specs.Prelude.{◌≡◌, List, map, slice_get, Ok, IfOk};
ghost use Rattle.ns_base.specs.declared.answers.Exit.TheVariants as exits;
ghost use Rattle.dex_file.specs.Content.{FileContent};
ghost use Rattle.nosleep.specs.Files.{AreContents, AreSmall, class_in, named_by};
ghost use Rattle.nosleep.specs.Refusals.{IsOver, IsRefused, InFile, InLink, InList, OutOfScope};
ghost use Rattle.nosleep.specs.Outcome.{IsNoCertificate, IsTooMany, counted_tag, counted_target};

use app_link::LinkFault;
use call_targets::TargetFault;
use certificate::CertFault;
use component_list::ListFault;
use dalvik_decode::CodeFault;
use dex_bytes::DexFault;
use dex_file::{FileFault, class_name};
use ns_base::{Counted, Exit, OutOfMemory};
use report_text::{
    bad_certificate, bad_code, bad_dex, bad_link, bad_list, over_limit, refusal_text,
};
use scope_check::ScopeFault;
use std::alloc::{AllocError, Global};
use tag_flow::TagFault;

/// An exit, and the text that is written with it.
#[derive(Drop)]
pub struct Answer {
    pub exit: Exit,
    pub text: Vec<u8>,
}

/// A text, or want of memory.
pub fn found_text(text: Result<Vec<u8>, OutOfMemory>) -> Result<Vec<u8>, AllocError>
    ensures { IfOk result (λ bytes. text ≡ Ok bytes) }
{
    match text {
        Ok(bytes) => Ok(bytes),
        Err(OutOfMemory) => Err(AllocError),
    }
}

/// The answer to the first fault of a list.
pub fn refuse_list(alloc: Global, fault: ListFault) -> Result<Answer, AllocError>
    ensures { IfOk result (λ a. IsRefused (InList fault) a.text.items a.exit) }
{
    match &fault {
        ListFault::Limit(which) => over(alloc, *which),
        ListFault::Memory => Err(AllocError),
        fault => Ok(bad(bad_list(alloc, fault)?)),
    }
}

/// The answer to the first fault of the file of this number.
pub fn refuse_file(alloc: Global, number: u32, fault: FileFault) -> Result<Answer, AllocError>
    ensures { IfOk result (λ a. IsRefused (InFile number fault) a.text.items a.exit) }
{
    match fault {
        FileFault::Dex(DexFault::Limit(which)) => over(alloc, which),
        FileFault::Dex(DexFault::Memory)
        | FileFault::Code(_, CodeFault::Memory)
        | FileFault::Memory => Err(AllocError),
        FileFault::Dex(fault) => Ok(bad(bad_dex(alloc, number, fault)?)),
        FileFault::Code(method, fault) => Ok(bad(bad_code(alloc, number, method, fault)?)),
    }
}

/// The answer to the first fault of linking files of these bytes. The contents went into linking, so the
/// name of a class is read again.
pub fn refuse_link(alloc: Global, files: &[Vec<u8>], fault: LinkFault) -> Result<Answer, AllocError>
    requires { AreSmall files.now }
    ensures { (contents : List FileContent) → AreContents (map (λ bytes. bytes.items) files.now) contents
        → IfOk result (λ a. IsRefused (InLink (named_by contents fault) fault) a.text.items a.exit) }
{
    match fault {
        LinkFault::Limit(which) => over(alloc, which),
        LinkFault::Memory => Err(AllocError),
        LinkFault::DuplicateClass(file, row, _) => {
            let name = name_in(alloc, files, file, row)?;
            Ok(bad(bad_link(alloc, &name, fault)?))
        }
        _ => Ok(bad(bad_link(alloc, b"", fault)?)),
    }
}

// The name of a class row of one of the files.
fn name_in(alloc: Global, files: &[Vec<u8>], file: u32, row: u32) -> Result<Vec<u8>, AllocError>
    requires { AreSmall files.now }
    ensures { (contents : List FileContent) → AreContents (map (λ bytes. bytes.items) files.now) contents
        → IfOk result (λ name. name.items ≡ class_in (slice_get contents file) row) }
{
    match files.get(file as usize) {
        Some(bytes) => match class_name(alloc, bytes, row) {
            Ok(name) => Ok(name),
            Err(_) => Err(AllocError),
        },
        None => Ok(Vec::new(alloc)),
    }
}

fn bad(text: Vec<u8>) -> Answer
    ensures { (result.exit ≡ exits.Bad) × (result.text ≡ text) }
{
    Answer {
        exit: Exit::Bad,
        text,
    }
}

/// The answer to a count that exceeds its limit.
pub fn over(alloc: Global, which: Counted) -> Result<Answer, AllocError>
    ensures { IfOk result (λ a. IsOver which a.text.items a.exit) }
{
    Ok(Answer {
        exit: Exit::Limit,
        text: over_limit(alloc, which)?,
    })
}

/// The answer to calls with too many targets.
pub fn refuse_targets(alloc: Global, fault: TargetFault) -> Result<Answer, AllocError>
    ensures { IfOk result (λ a. IsTooMany (counted_target fault) a.text.items a.exit) }
{
    match fault {
        TargetFault::Limit(which) => over(alloc, which),
        TargetFault::Memory => Err(AllocError),
    }
}

/// The answer to too many cells of tags.
pub fn refuse_tags(alloc: Global, fault: TagFault) -> Result<Answer, AllocError>
    ensures { IfOk result (λ a. IsTooMany (counted_tag fault) a.text.items a.exit) }
{
    match fault {
        TagFault::Limit(which) => over(alloc, which),
        TagFault::Memory => Err(AllocError),
    }
}

/// The answer to the first rule of scope that is broken.
pub fn refuse_scope(alloc: Global, fault: &ScopeFault) -> Result<Answer, AllocError>
    ensures { IfOk result (λ a. IsRefused (OutOfScope fault.now) a.text.items a.exit) }
{
    match fault {
        ScopeFault::Memory => Err(AllocError),
        ScopeFault::Rule { .. } => Ok(Answer {
            exit: Exit::Scope,
            text: found_text(refusal_text(alloc, fault))?,
        }),
    }
}

/// The answer to bytes that are no certificate.
pub fn refuse_certificate(alloc: Global, fault: CertFault) -> Result<Answer, AllocError>
    ensures { IfOk result (λ a. IsNoCertificate fault a.text.items a.exit) }
{
    match fault {
        CertFault::Line(line) => Ok(bad(bad_certificate(alloc, line)?)),
        CertFault::Memory => Err(AllocError),
    }
}
