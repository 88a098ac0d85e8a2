//! Methods that lack code, or have some that they are not to have.
ghost use Rattle.std.specs.Prelude.{◌≡◌, ◌≤◌, length};
ghost use Rattle.dalvik.specs.Access.{is_bodiless};
ghost use Rattle.app_link.specs.LinkFaults.{is_wrong, wrong_in, wrong_in_class, wrong_in_classes, code_fault, code_fault_from};

use crate::link_fault::LinkFault;
use dalvik::access;
use dex_file::{FileClass, FileMethod, FileParts};

/// What can be wrong with the code of a method.
#[derive(Clone, Copy)]
pub enum CodeWrong {
    /// The method is neither abstract nor native, and has none.
    Missing,
    /// It is abstract or native, and has some.
    Unwanted,
}

fn is_bodiless(flags: u32) -> bool
    ensures { result ≡ is_bodiless flags }
{
    flags & (access::ABSTRACT | access::NATIVE) != 0
}

fn is_wrong(wrong: CodeWrong, method: &FileMethod) -> bool
    ensures { result ≡ is_wrong wrong method.now }
{
    match wrong {
        CodeWrong::Missing => !is_bodiless(method.flags) && method.code.is_none(),
        CodeWrong::Unwanted => is_bodiless(method.flags) && method.code.is_some(),
    }
}

fn wrong_in(wrong: CodeWrong, methods: &[FileMethod]) -> Option<u32>
    ensures { result ≡ wrong_in wrong methods.now }
{
    for method in methods {
        if is_wrong(wrong, method) {
            return Some(method.id);
        }
    }
    None
}

fn wrong_in_class(wrong: CodeWrong, class: &FileClass) -> Option<u32>
    ensures { result ≡ wrong_in_class wrong class.now }
{
    match wrong_in(wrong, &class.directs) {
        Some(id) => Some(id),
        None => wrong_in(wrong, &class.virtuals),
    }
}

fn wrong_in_classes(wrong: CodeWrong, classes: &[FileClass]) -> Option<u32>
    ensures { result ≡ wrong_in_classes wrong classes.now }
{
    for class in classes {
        if let Some(id) = wrong_in_class(wrong, class) {
            return Some(id);
        }
    }
    None
}

fn code_fault(wrong: CodeWrong, file: u32, id: u32) -> LinkFault
    ensures { result ≡ code_fault wrong file id }
{
    match wrong {
        CodeWrong::Missing => LinkFault::CodeMissing(file, id),
        CodeWrong::Unwanted => LinkFault::CodeUnwanted(file, id),
    }
}

/// The first method of which this is wrong, by file, class row, and directs before virtuals.
pub fn find_code_fault(wrong: CodeWrong, files: &[FileParts]) -> Option<LinkFault>
    requires { length files.now ≤ 16 }
    ensures { result ≡ code_fault_from wrong 0 files.now }
{
    for n in 0..files.len() {
        let file = &files[n];
        if let Some(id) = wrong_in_classes(wrong, &file.classes) {
            return Some(code_fault(wrong, n as u32, id));
        }
    }
    None
}
