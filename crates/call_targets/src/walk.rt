//! A walk over types, which meets each once.
ghost use Rattle.std.specs.Prelude.{◌≡◌, ◌<◌, [], IfOk};
ghost use Rattle.std.specs.List.{All};
ghost use Rattle.ns_base.specs.declared.rows.TypeNo.{TypeNo};
ghost use Rattle.class_graph.specs.Walks.{has_kind, met, met_all};
ghost use Rattle.call_targets.specs.Below.{walk_of};

use ns_base::TypeNo;
use std::alloc::{AllocError, Global};
use std::marker::Model;

/// The types that were met, in order. Each is marked with the number of the walk, so that the next walk
/// needs no cleaning up.
#[derive(Drop)]
pub(crate) struct Walk {
    marks: Vec<u64>,
    turn: u64,
    kinds: Vec<TypeNo>,
}

impl Model for Walk {
    ghost use Rattle.std.specs.Prelude.{length};
    ghost use Rattle.class_graph.specs.Walks.{IsWalk};
    ghost use Rattle.call_targets.specs.Below.{WalkParts};

    ghost Value = { WalkParts };

    ghost view = { λ w. record { types = length w.marks.items; kinds = w.kinds.items } };

    ghost invariant = { λ w. IsWalk w.marks.items w.turn w.kinds.items };
}

impl Walk {
    /// A first walk over so many types, which has met none.
    pub fn new(alloc: Global, types: usize) -> Result<Walk, AllocError>
        ensures { IfOk result (λ walk. walk ≡ walk_of types []) }
    {
        let marks = vec![in alloc; 0; types]?;
        Ok(Walk {
            marks,
            turn: 1,
            kinds: Vec::new(alloc),
        })
    }

    /// Begins the next walk. More walks than can be counted are taken for want of memory.
    pub fn restart(&mut self) -> Result<(), AllocError>
        ensures { IfOk result (λ done. self.new ≡ walk_of self.old.types []) }
    {
        if self.turn == u64::MAX {
            return Err(AllocError);
        }
        self.turn += 1;
        self.kinds.clear();
        Ok(())
    }

    pub fn meet(&mut self, kind: TypeNo) -> Result<(), AllocError>
        requires { kind.0 < self.old.types }
        ensures { IfOk result (λ done. self.new ≡ walk_of self.old.types (met self.old.kinds kind)) }
    {
        if self.marks[kind.0 as usize] != self.turn {
            self.kinds.push(kind)?;
            self.marks[kind.0 as usize] = self.turn;
        }
        Ok(())
    }

    pub fn meet_all(&mut self, kinds: &[TypeNo]) -> Result<(), AllocError>
        requires { All (λ (t : TypeNo). t.0 < self.old.types) kinds.now }
        ensures { IfOk result (λ done. self.new ≡ walk_of self.old.types (met_all self.old.kinds kinds.now)) }
    {
        for i in 0..kinds.len() {
            self.meet(kinds[i])?;
        }
        Ok(())
    }

    pub fn has(&self, kind: TypeNo) -> bool
        requires { kind.0 < self.now.types }
        ensures { result ≡ has_kind self.now.kinds kind.0 }
    {
        self.marks[kind.0 as usize] == self.turn
    }

    pub fn kinds(&self) -> &[TypeNo]
        ensures { result.now ≡ self.now.kinds }
    {
        self.kinds.as_slice()
    }
}
