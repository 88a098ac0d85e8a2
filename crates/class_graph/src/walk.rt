//! A walk over types, which meets each once.
ghost use Rattle.std.specs.Prelude.{◌≡◌, ◌<◌, ◌+◌, ◌^◌, ◌-◌, [], IfOk};
ghost use Rattle.class_graph.specs.Walks.{met, with_kinds};

use ns_base::TypeNo;
use std::alloc::{AllocError, Global};
use std::marker::Model;

/// The types that were met, in order. A walk marks each type that it meets with its number, so the next
/// one needs no cleaning up.
#[derive(Drop)]
pub(crate) struct Walk {
    marks: Vec<u64>,
    turn: u64,
    kinds: Vec<TypeNo>,
}

impl Model for Walk {
    ghost use Rattle.class_graph.specs.Walks.{WalkParts, IsWalk};
    ghost use Rattle.std.specs.Prelude.{length};

    ghost Value = { WalkParts };

    ghost view = { λ w. record { types = length w.marks.items; turn = w.turn; kinds = w.kinds.items } };

    ghost invariant = { λ w. IsWalk w.marks.items w.turn w.kinds.items };
}

impl Walk {
    /// A first walk over so many types, which has met none.
    pub fn new(alloc: Global, types: usize) -> Result<Walk, AllocError>
        ensures { IfOk result (λ walk. walk ≡ record { types = types; turn = 1; kinds = [] }) }
    {
        let marks = vec![in alloc; 0; types]?;
        Ok(Walk {
            marks,
            turn: 1,
            kinds: Vec::new(alloc),
        })
    }

    /// Begins the next walk.
    pub fn restart(&mut self)
        requires { self.old.turn + 1 < 2 ^ 64 }
        ensures { self.new ≡ record { types = self.old.types; turn = self.old.turn + 1; kinds = [] } }
    {
        self.turn += 1;
        self.kinds.clear();
    }

    pub fn meet(&mut self, alloc: Global, kind: TypeNo) -> Result<(), AllocError>
        requires { kind.0 < self.old.types }
        ensures { IfOk result (λ done. self.new ≡ with_kinds self.old (met self.old.kinds kind)) }
    {
        let _ = alloc;
        if self.marks[kind.0 as usize] != self.turn {
            self.kinds.push(kind)?;
            self.marks[kind.0 as usize] = self.turn;
        }
        Ok(())
    }

    pub fn kinds(&self) -> &[TypeNo]
        ensures { result.now ≡ self.now.kinds }
    {
        self.kinds.as_slice()
    }
}
