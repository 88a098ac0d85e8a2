//! The methods, or the fields, of all classes.
ghost use Rattle.std.specs.Prelude.{◌≡◌, ℕ, if◌then◌else◌, [], IfOk, Some, None};
ghost use Rattle.app_model.specs.Hierarchy.{or_else};
ghost use Rattle.class_graph.specs.Graph.{member_in, same_member, member_of};

use ns_base::{ClassNo, NameNo};
use std::alloc::{AllocError, Global};
use std::collections::HashMap;
use std::marker::Model;

/// What a look-up asks for: the numbers of a class, of a name, and of a prototype or a type.
#[derive(Clone, Copy, PartialEq, Eq, Hash)]
pub(crate) struct Member {
    pub class: u32,
    pub name: u32,
    pub second: u32,
}

/// The number of the first method, or field, with such a class, name and prototype or type.
#[derive(Drop)]
pub(crate) struct Members {
    numbers: HashMap<Member, u32>,
}

impl Model for Members {
    ghost use Rattle.std.specs.Prelude.{ℕ, List};
    ghost use Rattle.class_graph.specs.declared.members.Member.{Member};

    ghost Value = { List (Member × ℕ) };

    ghost view = { λ m. m.numbers.entries };
}

impl Members {
    pub fn new(alloc: Global) -> Members
        ensures { result ≡ [] }
    {
        Members {
            numbers: HashMap::new(alloc),
        }
    }

    /// Adds a member; where there is an equal one, its number stays.
    pub fn add(&mut self, member: Member, number: u32) -> Result<(), AllocError>
        ensures { IfOk result (λ done. (name second c : ℕ) → member_in self.new name second c
            ≡ or_else (member_in self.old name second c) (if same_member member (member_of name second c) then Some number else None)) }
    {
        let first = self.numbers.get(&member).copied().unwrap_or(number);
        self.numbers.insert(member, first)?;
        Ok(())
    }

    /// The number of a class's first member of this name and prototype, or type.
    pub fn find(&self, class: ClassNo, name: NameNo, second: u32) -> Option<u32>
        ensures { result ≡ member_in self.now name.0 second class.0 }
    {
        let member = Member {
            class: class.0,
            name: name.0,
            second,
        };
        self.numbers.get(&member).copied()
    }
}
