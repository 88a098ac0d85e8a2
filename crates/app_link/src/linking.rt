//! Linking the files of an application.
ghost use Rattle.std.specs.Prelude.{◌≡◌, ◌≤◌, ◌<◌, ◌^◌, List, Ok, [], length, IfOk};
ghost use Rattle.app_model.specs.Words.{IsApp};
ghost use Rattle.app_link.specs.LinkFaults.{◌or◌, code_fault_from, class_names, duplicate_of, repeat_from};
ghost use Rattle.app_link.specs.declared.code_checks.CodeWrong.TheVariants.{Missing, Unwanted};
ghost use Rattle.std.specs.List.{All};
ghost use Rattle.ns_base.specs.Answers.{limit_of};
ghost use Rattle.ns_base.specs.declared.answers.Counted.TheVariants.{Sites};
ghost use Rattle.app_model.specs.Parts.{AppParts};
ghost use Rattle.app_model.specs.Sites.{sites_below};
ghost use Rattle.app_model.specs.Sound.{IsSoundApp};
ghost use Rattle.dex_file.specs.Content.{FileContent};
ghost use Rattle.dex_file.specs.Reading.{IsContent};
ghost use Rattle.dex_file.specs.Sizes.{HasFewMembers};
ghost use Rattle.app_rows.specs.Small.{AreSmall};
ghost use Rattle.app_link.specs.Linking.{AreShort, IsChecked, IsLinked, IsWithin};

use crate::class_checks::{count_classes, duplicate_fault, find_place, find_repeat};
use crate::code_checks::{CodeWrong, find_code_fault};
use crate::cycles::find_cycle;
use crate::limits::{above, find_sites_fault, find_units_fault};
use crate::link_fault::LinkFault;
use app_model::{App, AppRows, ClassRow};
use app_rows::make_rows;
use dex_file::{DexParts, FileParts};
use ns_base::Counted;
use std::alloc::{AllocError, Global};

// The first fault of a method's code.
fn code_fault(files: &[FileParts]) -> Option<LinkFault>
    requires { length files.now ≤ 16 }
    ensures { result ≡ (code_fault_from Missing 0 files.now or code_fault_from Unwanted 0 files.now) }
{
    match find_code_fault(CodeWrong::Missing, files) {
        Some(fault) => Some(fault),
        None => find_code_fault(CodeWrong::Unwanted, files),
    }
}

// The fault of two classes of one name, or else that of the code.
fn early_fault(
    alloc: Global,
    counts: &[u32],
    classes: &[ClassRow],
    code: Option<LinkFault>,
) -> Result<Option<LinkFault>, AllocError>
    requires counts { length counts.now ≤ 16 }
    requires classes { length classes.now < 2 ^ 32 }
    ensures { IfOk result (λ fault. fault ≡ (duplicate_of counts.now (repeat_from [] (class_names classes.now)) or code)) }
{
    let repeat = find_repeat(alloc, classes)?;
    match duplicate_fault(counts, repeat) {
        Some(fault) => Ok(Some(fault)),
        None => Ok(code),
    }
}

// The rows, unless a limit is exceeded: that of code units first.
fn limited(rows: AppRows, units: Option<LinkFault>) -> Result<AppRows, LinkFault>
    requires { length rows.locks ≤ 64 → IsApp rows }
    ensures within { IsWithin units rows result }
    ensures sizes { IfOk result IsApp }
{
    if let Some(fault) = units {
        return Err(fault);
    }
    match above(Counted::Locks, rows.locks.len() as u128) {
        Some(fault) => Err(fault),
        None => Ok(rows),
    }
}

// The contents of the files.
fn take_parts(alloc: Global, files: Vec<DexParts>) -> Result<Vec<FileParts>, AllocError>
    ensures same { IfOk result (λ parts. parts.items ≡ files.items) }
    ensures contents { IfOk result (λ parts. All IsContent parts.items) }
    ensures few { IfOk result (λ parts. All HasFewMembers parts.items) }
{
    let mut taken = Vec::with_capacity(alloc, files.len())?;
    for file in files {
        taken.push(file.into_parts())?;
    }
    Ok(taken)
}

/// The rows of the application of these contents, or the first fault, as `link` says: all faults but that
/// of too many calls that make a lock.
pub fn check_parts(alloc: Global, files: Vec<FileParts>) -> Result<AppRows, LinkFault>
    requires { AreSmall files.items }
    ensures checked { IsChecked files.items result }
    ensures sizes { IfOk result IsApp }
{
    let counts = count_classes(alloc, &files)?;
    let code = code_fault(&files);
    let units = find_units_fault(&files);
    let rows = make_rows(alloc, files)?;
    if let Some(fault) = early_fault(alloc, &counts, &rows.classes, code)? {
        return Err(fault);
    }
    if let Some(class) = find_cycle(alloc, &rows.classes)? {
        let place = find_place(&counts, class);
        return Err(LinkFault::SuperCycle(place.file, place.row));
    }
    limited(rows, units)
}

/// The application of these files, or their first fault: two classes of one name; code that is
/// missing, then code that is unwanted; a class that is its own ancestor; then the limits of code
/// units, wake-lock fields and calls that make a lock. Each by file and row.
pub fn link(alloc: Global, files: Vec<DexParts>) -> Result<App, LinkFault>
    requires { AreShort files.items }
    ensures linked { IsLinked files.items result }
    ensures sound { IfOk result IsSoundApp }
    ensures sites { IfOk result (λ app. sites_below app (length app.methods) ≤ limit_of Sites) }
{
    let parts = take_parts(alloc, files)?;
    let rows = check_parts(alloc, parts)?;
    let app = App::indexed(alloc, rows)?;
    match find_sites_fault(&app) {
        Some(fault) => Err(fault),
        None => Ok(app),
    }
}

/// What holds of the application of small files that were read: each number is a row of its table, what is
/// spelled alike has one number, no class is its own ancestor, the lock fields are those of the wake
/// lock's type, and code fits its methods.
pub fn app_law()
    ensures { (files : List FileContent) (app : AppParts) → AreSmall files → All IsContent files → IsLinked files (Ok app) → IsSoundApp app }
{}
