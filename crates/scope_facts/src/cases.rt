//! What is looked at.
ghost use Rattle.std.specs.Prelude.{◌≡◌, ◌++◌, IfOk, Option, filter_map};
ghost use Rattle.ns_base.specs.declared.rows.MethodNo.{MethodNo};
ghost use Rattle.app_model.specs.Components.{BelongsTo, entries_of};
ghost use Rattle.app_model.specs.Targets.{IsCallGraph};
ghost use Rattle.flow_model.specs.TagFlow.{IsTagTableOf};
ghost use Rattle.scope_facts.specs.Cases.{IsCase, candidate};

use app_model::{App, CallGraph, ComponentTable, TagTable};
use ns_base::MethodNo;
use std::alloc::{AllocError, Global};
use std::marker::Model;

/// An application with its call graph, its component list and its tags.
#[derive(Drop)]
pub struct Case {
    pub app: App,
    pub graph: CallGraph,
    pub list: ComponentTable,
    pub tags: TagTable,
}

impl Model for Case {
    ghost use Rattle.flow_model.specs.Breaks.{Candidate};
    ghost use Rattle.scope_facts.specs.Cases.{IsCase};

    ghost Value = { Candidate };

    ghost view = { λ c. record { app = c.app; graph = c.graph; list = c.list; tags = c.tags } };

    ghost invariant = { λ c. IsCase (record { app = c.app; graph = c.graph; list = c.list; tags = c.tags }) };
}

impl Case {
    pub fn new(app: App, graph: CallGraph, list: ComponentTable, tags: TagTable) -> Case
        requires graph { IsCallGraph app graph }
        requires list { BelongsTo app list }
        requires tags { IsTagTableOf app graph list tags }
        ensures { result ≡ candidate app graph list tags }
    {
        app.told();
        Case {
            app,
            graph,
            list,
            tags,
        }
    }

    /// What holds of each case.
    pub fn told(&self)
        ensures { IsCase self.now }
    {
        let _ = &self.app;
    }

    /// The methods of all callbacks.
    #[tactic(auto, unfolding(app_model::specs::Components::entries_of))]
    pub fn entries(&self, alloc: Global) -> Result<Vec<MethodNo>, AllocError>
        ensures { IfOk result (λ entries. entries.items ≡ entries_of self.now.list) }
    {
        let rows = self.list.rows.as_slice();
        let mut entries = Vec::new(alloc);
        for c in 0..rows.len() {
            let row = &rows[c];
            push_methods(&mut entries, &row.methods)?;
        }
        Ok(entries)
    }
}

// The methods that a component has.
fn push_methods(entries: &mut Vec<MethodNo>, methods: &[Option<MethodNo>]) -> Result<(), AllocError>
    ensures { IfOk result (λ done. entries.new.items ≡ entries.old.items ++ filter_map (λ (m : Option MethodNo). m) methods.now) }
{
    for k in 0..methods.len() {
        if let Some(method) = methods[k] {
            entries.push(method)?;
        }
    }
    Ok(())
}
