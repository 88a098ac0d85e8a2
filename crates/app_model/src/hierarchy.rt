//! Classes by their types, and the classes above them.
ghost use Rattle.std.specs.Prelude.{◌≡◌, ◌<◌, ◌^◌, IfOk, IfSome, None, length, List, option_map, replicate};
ghost use Rattle.std.specs.List.{All};
ghost use Rattle.ns_base.specs.declared.rows.ClassNo.{ClassNo};
ghost use Rattle.app_model.specs.Hierarchy.{class_of_type, superclass_at};
ghost use Rattle.app_model.specs.Index.{IsIndex, KeepsIndex};
ghost use Rattle.app_model.specs.Parts.{ClassParts};

use crate::app::App;
use crate::rows::ClassRow;
use ns_base::{ClassNo, TypeNo};
use std::alloc::{AllocError, Global};

// As many places without a class.
fn no_classes(alloc: Global, count: usize) -> Result<Vec<Option<ClassNo>>, AllocError>
    ensures { IfOk result (λ index. index.items ≡ replicate count None) }
{
    let mut index = Vec::with_capacity(alloc, count)?;
    for _place in 0..count {
        index.push(None)?;
    }
    Ok(index)
}

/// The class of each of `count` types, by the type's number.
pub(crate) fn index_types(
    alloc: Global,
    count: usize,
    classes: &[ClassRow],
) -> Result<Vec<Option<ClassNo>>, AllocError>
    requires names { All (λ (class : ClassParts). class.name.0 < count) classes.now }
    requires few { length classes.now < 2 ^ 32 }
    ensures { IfOk result (λ index. IsIndex classes.now index.items) }
{
    let mut index = no_classes(alloc, count)?;
    for c in (0..classes.len()).rev() {
        let class = &classes[c];
        index[class.name.0 as usize] = Some(ClassNo(c as u32));
    }
    Ok(index)
}

// What an index that is kept says of a type.
fn kept_class(index: &Option<Vec<Option<ClassNo>>>, kind: TypeNo) -> Option<Option<ClassNo>>
    ensures { (classes : List ClassParts) → KeepsIndex classes index.now
        → IfSome result (λ found. option_map (λ (c : ClassNo). c.0) found ≡ class_of_type classes kind.0) }
{
    match index {
        Some(index) => index.get(kind.0 as usize).copied(),
        None => None,
    }
}

// The first class of a type, by a walk over the classes.
#[tactic(auto, unfolding(crate::specs::Hierarchy::class_of_type))]
fn find_class(classes: &[ClassRow], kind: TypeNo) -> Option<ClassNo>
    requires few { length classes.now < 2 ^ 32 }
    ensures is { option_map (λ (c : ClassNo). c.0) result ≡ class_of_type classes.now kind.0 }
    ensures within { IfSome result (λ c. c.0 < length classes.now) }
{
    for c in 0..classes.len() {
        let class = &classes[c];
        if class.name.0 == kind.0 {
            return Some(ClassNo(c as u32));
        }
    }
    None
}

impl App {
    /// The class of a type, if it is one of the application's.
    pub fn class_of_type(&self, kind: TypeNo) -> Option<ClassNo>
        ensures is { option_map (λ (c : ClassNo). c.0) result ≡ class_of_type self.now.classes kind.0 }
        ensures within { IfSome result (λ c. c.0 < length self.now.classes) }
    {
        match kept_class(&self.index, kind) {
            Some(found) => found,
            None => find_class(&self.rows.classes, kind),
        }
    }

    /// The superclass of a class, if it is one of the application's.
    #[tactic(auto, unfolding(crate::specs::Hierarchy::superclass_at))]
    pub fn superclass(&self, class: ClassNo) -> Option<ClassNo>
        ensures is { option_map (λ (c : ClassNo). c.0) result ≡ superclass_at self.now.classes class.0 }
        ensures within { IfSome result (λ c. c.0 < length self.now.classes) }
    {
        if class.0 >= self.class_count() {
            return None;
        }
        match self.class(class).parent {
            Some(parent) => self.class_of_type(parent),
            None => None,
        }
    }
}
