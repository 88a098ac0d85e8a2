//! What the id tables say.
use std::marker::Model;

/// Some of the entries of a longer list: where they begin, and how many they are.
#[derive(Clone, Copy, Debug, PartialEq, Eq)]
pub struct Slice {
    pub at: u32,
    pub len: u32,
}

/// A prototype. The entries of `params` are types, at their place in `Tables.lists`.
#[derive(Clone, Copy, Debug, PartialEq, Eq)]
pub struct ProtoId {
    pub shorty: u32,
    pub result: u32,
    pub params: Slice,
}

/// A field: the type of its class, its own type, and the string of its name.
#[derive(Clone, Copy, Debug, PartialEq, Eq)]
pub struct FieldId {
    pub class: u16,
    pub kind: u16,
    pub name: u32,
}

/// A method: the type of its class, its prototype, and the string of its name.
#[derive(Clone, Copy, Debug, PartialEq, Eq)]
pub struct MethodId {
    pub class: u16,
    pub proto: u16,
    pub name: u32,
}

/// A class. The entries of `interfaces` are types, at their place in `Tables.lists`; `members` is the
/// offset of the class data, unchecked, and 0 where there is none.
#[derive(Clone, Copy, Debug, PartialEq, Eq)]
pub struct ClassDef {
    pub class: u32,
    pub flags: u32,
    pub parent: Option<u32>,
    pub interfaces: Slice,
    pub members: u32,
}

/// The rows of the six tables. A string is a slice of the file's own bytes, without its zero byte; a
/// type is the string of its name. `lists` has the entries of all type lists one after another.
#[derive(Drop)]
pub struct Tables {
    pub strings: Vec<Slice>,
    pub types: Vec<u32>,
    pub protos: Vec<ProtoId>,
    pub fields: Vec<FieldId>,
    pub methods: Vec<MethodId>,
    pub classes: Vec<ClassDef>,
    pub lists: Vec<u16>,
}

impl Model for Tables {
    ghost use Rattle.dex_tables.specs.Content.{IdTables};

    ghost Value = { IdTables };

    ghost view = { λ t. record {
      strings = t.strings.items;
      types = t.types.items;
      protos = t.protos.items;
      fields = t.fields.items;
      methods = t.methods.items;
      classes = t.classes.items;
      lists = t.lists.items;
    } };
}
