//! What the class data says of a class.
use std::marker::Model;

/// A field or a method: its row in the table, its access flags, and the offset of its code, unchecked,
/// which is 0 for a field and where there is none.
#[derive(Clone, Copy, Debug, PartialEq, Eq)]
pub struct Member {
    pub id: u32,
    pub flags: u32,
    pub code: u32,
}

/// The members of a class, in the order of the file.
#[derive(Drop)]
pub struct ClassMembers {
    pub statics: Vec<Member>,
    pub instances: Vec<Member>,
    pub directs: Vec<Member>,
    pub virtuals: Vec<Member>,
}

impl Model for ClassMembers {
    ghost use Rattle.dex_code.specs.Content.{MemberLists};

    ghost Value = { MemberLists };

    ghost view = { λ m. record {
      statics = m.statics.items;
      instances = m.instances.items;
      directs = m.directs.items;
      virtuals = m.virtuals.items;
    } };
}
