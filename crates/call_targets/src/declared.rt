//! Which classes declare a method of a name and prototype.
ghost use Rattle.std.specs.Prelude.{◌≡◌, ◌<◌, ◌+◌, [], ◌∷◌, ◌++◌, ℕ, IfOk, Some, None, if◌then◌else◌, length, option_map};
ghost use Rattle.std.specs.Map.{lookup};
ghost use Rattle.call_targets.specs.Signatures.{AreDeclared, classes_in, classes_with, same_signature};
ghost use Rattle.call_targets.specs.declared.declared.Signature.{Signature};

use app_model::App;
use dalvik::access;
use ns_base::{ClassNo, MethodNo, NameNo, ProtoNo};
use std::alloc::{AllocError, Global};
use std::collections::HashMap;
use std::marker::Model;

/// The numbers of a name and a prototype.
#[derive(Clone, Copy, PartialEq, Eq, Hash)]
pub(crate) struct Signature {
    pub name: u32,
    pub proto: u32,
}

/// The classes with a method that is not abstract, by its name and prototype; a class as often as it
/// has such methods.
#[derive(Drop)]
pub(crate) struct Declared {
    lists: HashMap<Signature, Vec<ClassNo>>,
}

impl Model for Declared {
    ghost use Rattle.std.specs.Prelude.{List};
    ghost use Rattle.std.specs.declared.alloc.Global.{Global};
    ghost use Rattle.std.specs.declared.vec.Vec.{Vec};
    ghost use Rattle.ns_base.specs.declared.rows.ClassNo.{ClassNo};
    ghost use Rattle.call_targets.specs.declared.declared.Signature.{Signature};

    ghost Value = { List (Signature × Vec ClassNo Global) };

    ghost view = { λ d. d.lists.entries };
}

impl Declared {
    fn new(alloc: Global) -> Declared
        ensures { result ≡ [] }
    {
        Declared {
            lists: HashMap::new(alloc),
        }
    }

    // Takes the classes of a name and prototype out.
    fn take(&mut self, alloc: Global, signature: Signature) -> Vec<ClassNo>
        ensures list { result.items ≡ classes_in self.old signature.name signature.proto }
        ensures others { (q : Signature) → lookup (same_signature q) self.new ≡ (if same_signature signature q then None else lookup (same_signature q) self.old) }
    {
        match self.lists.remove(&signature) {
            Some(list) => list,
            None => Vec::new(alloc),
        }
    }

    // One more class for a name and prototype.
    fn add(&mut self, alloc: Global, signature: Signature, class: ClassNo) -> Result<(), AllocError>
        ensures { IfOk result (λ done. (name proto : ℕ) → classes_with self.new name proto
            ≡ (if same_signature signature (record { name = name; proto = proto }) then Some (classes_in self.old name proto ++ class ∷ []) else classes_with self.old name proto)) }
    {
        let mut list = self.take(alloc, signature);
        list.push(class)?;
        self.lists.insert(signature, list)?;
        Ok(())
    }

    /// The classes that declare such a method; none where no class does.
    pub fn classes(&self, name: NameNo, proto: ProtoNo) -> Option<&[ClassNo]>
        ensures { option_map (λ list. list.now) result ≡ classes_with self.now name.0 proto.0 }
    {
        let signature = Signature {
            name: name.0,
            proto: proto.0,
        };
        match self.lists.get(&signature) {
            Some(list) => Some(list.as_slice()),
            None => None,
        }
    }
}

// The next method, if a look-up may find it.
fn add_method(
    alloc: Global,
    app: &App,
    declared: &mut Declared,
    method: MethodNo,
) -> Result<(), AllocError>
    requires method { method.0 < length app.now.methods }
    requires before { AreDeclared app.now method.0 declared.old }
    ensures { IfOk result (λ done. AreDeclared app.now (method.0 + 1) declared.new) }
{
    let row = app.method(method);
    if row.flags & access::ABSTRACT != 0 {
        return Ok(());
    }
    let signature = Signature {
        name: row.name.0,
        proto: row.proto.0,
    };
    declared.add(alloc, signature, row.class)
}

/// The classes that declare methods, for all names and prototypes.
pub(crate) fn declared_classes(alloc: Global, app: &App) -> Result<Declared, AllocError>
    ensures { IfOk result (AreDeclared app.now (length app.now.methods)) }
{
    let mut declared = Declared::new(alloc);
    for m in 0..app.method_count() {
        add_method(alloc, app, &mut declared, MethodNo(m))?;
    }
    Ok(declared)
}
