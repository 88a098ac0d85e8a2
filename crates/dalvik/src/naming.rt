//! What an instruction names in the id tables.
ghost use Rattle.std.specs.Prelude.{◌≡◌};
ghost use Rattle.dalvik.specs.Naming.{naming_of, with_kind};

use crate::ins::Ins;

/// A row of an id table that an instruction names.
#[derive(Clone, Copy)]
pub enum Naming {
    Nothing,
    String(u32),
    Kind(u32),
    Field(u32),
    Method(u32),
}

impl Ins {
    /// The row that the instruction names.
    pub fn named(self) -> Naming
        ensures { result ≡ naming_of self }
    {
        match self {
            Ins::ConstString { string, .. } => Naming::String(string),
            Ins::ConstClass { kind, .. }
            | Ins::CheckCast { kind, .. }
            | Ins::InstanceOf { kind, .. }
            | Ins::NewInstance { kind, .. }
            | Ins::NewArray { kind, .. }
            | Ins::FilledNewArray { kind, .. } => Naming::Kind(kind),
            Ins::FieldGet { field, .. }
            | Ins::FieldPut { field, .. }
            | Ins::StaticGet { field, .. }
            | Ins::StaticPut { field, .. } => Naming::Field(field),
            Ins::Invoke { method, .. } => Naming::Method(method),
            _ => Naming::Nothing,
        }
    }

    /// The instruction with this type in place of its own; one that names no type as it is.
    pub fn with_kind(self, kind: u32) -> Ins
        ensures { result ≡ with_kind kind self }
    {
        match self {
            Ins::ConstClass { to, .. } => Ins::ConstClass { to, kind },
            Ins::CheckCast { object, .. } => Ins::CheckCast { object, kind },
            Ins::InstanceOf { to, object, .. } => Ins::InstanceOf { to, object, kind },
            Ins::NewInstance { to, .. } => Ins::NewInstance { to, kind },
            Ins::NewArray { to, size, .. } => Ins::NewArray { to, size, kind },
            Ins::FilledNewArray { op, args, .. } => Ins::FilledNewArray { op, kind, args },
            _ => self,
        }
    }
}
