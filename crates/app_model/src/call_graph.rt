//! What each call can call.
ghost use Rattle.std.specs.Prelude.{◌≡◌, ◌<◌, ◌^◌, length, map, option_map};
ghost use Rattle.app_model.specs.CallGraph.{AreRising, IsGraph, targets_at, callees_at, callees_of, outside_at, set_number, targets_of, use_at};

use ns_base::MethodNo;
use std::marker::Model;

/// What a call can call: methods of the application, and whether it can lead outside it.
#[derive(Drop)]
pub struct TargetRow {
    pub callees: Vec<MethodNo>,
    pub outside: bool,
}

impl Model for TargetRow {
    ghost use Rattle.app_model.specs.CallGraph.{TargetParts};

    ghost Value = { TargetParts };

    ghost view = { λ t. record { callees = t.callees.items; outside = t.outside } };
}

/// What each call of an application can call.
#[derive(Drop)]
pub struct CallGraph {
    sets: Vec<TargetRow>,
    uses: Vec<Vec<Option<u32>>>,
}

impl Model for CallGraph {
    ghost use Rattle.app_model.specs.CallGraph.{GraphParts, IsGraph};
    ghost use Rattle.std.specs.Prelude.{map};

    ghost Value = { GraphParts };

    ghost view = { λ g. record { sets = g.sets.items; uses = map (λ v. v.items) g.uses.items } };

    ghost invariant = { λ g. IsGraph (record { sets = g.sets.items; uses = map (λ v. v.items) g.uses.items }) };
}

impl CallGraph {
    /// `uses[m][i]` is the place in `sets` of what instruction i of method m can call, and none where
    /// it is no call. The callees of a set rise. Takes no memory.
    pub fn new(sets: Vec<TargetRow>, uses: Vec<Vec<Option<u32>>>) -> CallGraph
        requires { IsGraph (record { sets = sets.items; uses = map (λ v. v.items) uses.items }) }
        ensures { result ≡ record { sets = sets.items; uses = map (λ v. v.items) uses.items } }
    {
        CallGraph { sets, uses }
    }

    /// What holds of each call graph.
    pub fn told(&self)
        ensures { IsGraph self.now }
    {
        let _ = &self.sets;
    }

    /// The methods that an instruction can call, rising; none where it is no call.
    pub fn callees(&self, method: MethodNo, index: u32) -> &[MethodNo]
        ensures callees { result.now ≡ callees_at self.now method.0 index }
        ensures rising { AreRising result.now }
    {
        let _ = &self.sets;
        match self.targets(method, index) {
            Some(row) => &row.callees,
            None => &[],
        }
    }

    /// Whether an instruction can call what is outside the application.
    pub fn outside(&self, method: MethodNo, index: u32) -> bool
        ensures { result ≡ outside_at self.now method.0 index }
    {
        match self.targets(method, index) {
            Some(row) => row.outside,
            None => false,
        }
    }

    /// How many sets of targets there are. Calls that can call the same may share one.
    pub fn set_count(&self) -> usize
        ensures count { result ≡ length self.now.sets }
        ensures fits { result < 2 ^ 63 }
    {
        self.sets.len()
    }

    /// The number of the set that an instruction uses; none where it is no call.
    #[tactic(auto, unfolding(crate::specs::CallGraph::use_at))]
    pub fn set_used(&self, method: MethodNo, index: u32) -> Option<u32>
        ensures { result ≡ set_number (use_at self.now method.0 index) }
    {
        let uses = self.uses.get(method.0 as usize)?;
        *uses.get(index as usize)?
    }

    /// The methods of a set, rising; none where there is no such set.
    pub fn set_callees(&self, set: usize) -> &[MethodNo]
        ensures { result.now ≡ callees_of self.now set }
    {
        match self.sets.get(set) {
            Some(row) => &row.callees,
            None => &[],
        }
    }

    // What an instruction can call, where it is a call.
    #[tactic(auto, unfolding(crate::specs::CallGraph::targets_at, crate::specs::CallGraph::use_at))]
    fn targets(&self, method: MethodNo, index: u32) -> Option<&TargetRow>
        ensures { targets_of (option_map (λ t. t.now) result) ≡ targets_at self.now method.0 index }
    {
        let Some(row) = self.uses.get(method.0 as usize) else {
            return None;
        };
        let Some(Some(set)) = row.get(index as usize) else {
            return None;
        };
        self.sets.get(*set as usize)
    }
}
