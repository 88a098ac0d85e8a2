//! Classes of one name, and where a class stands in the files.
ghost use Rattle.std.specs.Prelude.{◌≡◌, ◌≤◌, ◌<◌, ◌^◌, ◌++◌, ◌∷◌, [], length, nat_eq, position, IfOk, None, Some, ℕ};
ghost use Rattle.app_link.specs.LinkFaults.{class_counts, class_names, place_from, repeat_from, duplicate_of};
ghost use Rattle.app_rows.specs.Small.{AreSmall};

use crate::link_fault::LinkFault;
use app_model::ClassRow;
use dex_file::FileParts;
use indexmap::IndexSet;
use std::alloc::{AllocError, Global};

/// A file, and a row of its classes.
#[derive(Clone, Copy)]
pub struct ClassPlace {
    pub file: u32,
    pub row: u32,
}

/// A class, and the first one of its name, which comes before it.
#[derive(Clone, Copy)]
pub struct Repeat {
    pub class: u32,
    pub first: u32,
}

/// How many classes each file has.
pub fn count_classes(alloc: Global, files: &[FileParts]) -> Result<Vec<u32>, AllocError>
    requires { AreSmall files.now }
    ensures { IfOk result (λ counts. counts.items ≡ class_counts files.now) }
{
    let mut counts = Vec::with_capacity(alloc, files.len())?;
    for n in 0..files.len() {
        let file = &files[n];
        counts.push(file.classes.len() as u32)?;
    }
    Ok(counts)
}

/// Where a class stands, by how many classes each file has.
pub fn find_place(counts: &[u32], class: u32) -> ClassPlace
    requires { length counts.now ≤ 16 }
    ensures { result ≡ place_from 0 counts.now class }
{
    let mut row = class;
    for n in 0..counts.len() {
        if row < counts[n] {
            return ClassPlace {
                file: n as u32,
                row,
            };
        }
        row -= counts[n];
    }
    ClassPlace {
        file: counts.len() as u32,
        row,
    }
}

// The place of a name among those before it. A new one goes last.
fn see_name(before: &mut IndexSet<u32>, name: u32) -> Result<Option<usize>, AllocError>
    ensures first { IfOk result (λ first. first ≡ position (nat_eq name) before.old.keys) }
    ensures pushed { IfOk result (λ first. first ≡ None → before.new.keys ≡ before.old.keys ++ name ∷ []) }
    ensures within { IfOk result (λ first. (i : ℕ) → first ≡ Some i → i < length before.old.keys) }
{
    match before.get_index_of(&name) {
        Some(first) => Ok(Some(first)),
        None => {
            before.insert(name)?;
            Ok(None)
        }
    }
}

/// The first class whose name one before it has.
pub fn find_repeat(alloc: Global, classes: &[ClassRow]) -> Result<Option<Repeat>, AllocError>
    requires { length classes.now < 2 ^ 32 }
    ensures { IfOk result (λ repeat. repeat ≡ repeat_from [] (class_names classes.now)) }
{
    let mut before = IndexSet::new(alloc);
    for c in 0..classes.len() {
        let class = &classes[c];
        if let Some(first) = see_name(&mut before, class.name.0)? {
            return Ok(Some(Repeat {
                class: c as u32,
                first: first as u32,
            }));
        }
    }
    Ok(None)
}

/// The fault of two classes of one name.
pub fn duplicate_fault(counts: &[u32], repeat: Option<Repeat>) -> Option<LinkFault>
    requires { length counts.now ≤ 16 }
    ensures { result ≡ duplicate_of counts.now repeat }
{
    match repeat {
        Some(repeat) => {
            let again = find_place(counts, repeat.class);
            let first = find_place(counts, repeat.first);
            Some(LinkFault::DuplicateClass(again.file, again.row, first.file))
        }
        None => None,
    }
}
