//! What is kept of a DEX file.
ghost use Rattle.std.specs.Prelude.{◌≡◌};
ghost use Rattle.dex_file.specs.Reading.{IsContent};
ghost use Rattle.dex_file.specs.Sizes.{HasFewMembers};

use dalvik::Body;
use dex_tables::{FieldId, MethodId};
use std::marker::Model;

/// A field of a class: its row in the table of fields, and its access flags.
#[derive(Clone, Copy)]
pub struct FileField {
    pub id: u32,
    pub flags: u32,
}

/// The code of a method: how many of its registers hold the arguments, and its instructions.
#[derive(Drop)]
pub struct FileCode {
    pub ins: u16,
    pub body: Body,
}

/// A method of a class: its row in the table of methods, its access flags, and its code.
#[derive(Drop)]
pub struct FileMethod {
    pub id: u32,
    pub flags: u32,
    pub code: Option<FileCode>,
}

/// A prototype: a string, the type of the result, and the types of the parameters.
#[derive(Drop)]
pub struct FileProto {
    pub shorty: u32,
    pub result: u32,
    pub params: Vec<u16>,
}

impl Model for FileProto {
    ghost use Rattle.dex_file.specs.Content.{ProtoContent};

    ghost Value = { ProtoContent };

    ghost view = { λ p. record { shorty = p.shorty; result = p.result; params = p.params.items } };
}

/// A class row: its type, its flags, the type of its superclass, the types of its interfaces, and its
/// members.
#[derive(Drop)]
pub struct FileClass {
    pub kind: u32,
    pub flags: u32,
    pub parent: Option<u32>,
    pub interfaces: Vec<u16>,
    pub statics: Vec<FileField>,
    pub instances: Vec<FileField>,
    pub directs: Vec<FileMethod>,
    pub virtuals: Vec<FileMethod>,
}

impl Model for FileClass {
    ghost use Rattle.dex_file.specs.Content.{ClassContent};

    ghost Value = { ClassContent };

    ghost view = { λ c. record {
      kind = c.kind;
      flags = c.flags;
      parent = c.parent;
      interfaces = c.interfaces.items;
      statics = c.statics.items;
      instances = c.instances.items;
      directs = c.directs.items;
      virtuals = c.virtuals.items;
    } };
}

/// All that is kept of a file.
#[derive(Drop)]
pub struct FileParts {
    pub strings: Vec<Vec<u8>>,
    pub types: Vec<u32>,
    pub protos: Vec<FileProto>,
    pub fields: Vec<FieldId>,
    pub methods: Vec<MethodId>,
    pub classes: Vec<FileClass>,
    pub units: u64,
}

impl Model for FileParts {
    ghost use Rattle.std.specs.Prelude.{map};
    ghost use Rattle.dex_file.specs.Content.{FileContent};

    ghost Value = { FileContent };

    ghost view = { λ f. record {
      strings = map (λ v. v.items) f.strings.items;
      types = f.types.items;
      protos = f.protos.items;
      fields = f.fields.items;
      methods = f.methods.items;
      classes = f.classes.items;
      units = f.units;
    } };
}

/// The content of a DEX file. Its texts and bodies are its own: the file's bytes may go.
#[derive(Drop)]
pub struct DexParts {
    pub(crate) parts: FileParts,
}

impl Model for DexParts {
    ghost use Rattle.dex_file.specs.Content.{FileContent};
    ghost use Rattle.dex_file.specs.Reading.{IsContent};

    ghost Value = { FileContent };

    ghost view = { λ d. d.parts };

    ghost invariant = { λ d. IsContent d.parts };
}

impl DexParts {
    /// The content itself, to be moved into an application.
    pub fn into_parts(self) -> FileParts
        ensures same { result ≡ self }
        ensures content { IsContent result }
        ensures members { HasFewMembers result }
    {
        let DexParts { parts } = self;
        parts
    }
}
