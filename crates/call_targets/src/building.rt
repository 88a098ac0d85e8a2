//! The call graph of an application.
ghost use Rattle.std.specs.Prelude.{◌≤◌, IfErr, IfOk};
ghost use Rattle.ns_base.specs.Answers.{limit_of};
ghost use Rattle.ns_base.specs.declared.answers.Counted.TheVariants.{Targets};
ghost use Rattle.app_model.specs.Targets.{IsCallGraph, entry_count};
ghost use Rattle.class_graph.specs.Belongs.{IsClassGraph};
ghost use Rattle.call_targets.specs.Answers.{IsCause};
ghost use Rattle.call_targets.specs.Numbered.{IsNumbered};
ghost use Rattle.call_targets.specs.Sources.{IsIndex};

use crate::fault::TargetFault;
use crate::making::make_sets;
use crate::numbers::{Numbered, number_calls};
use crate::sources::{Index, make_index};
use app_model::{App, CallGraph};
use class_graph::ClassGraph;
use std::alloc::{AllocError, Global};

// The call graph of numbered calls.
fn graph_of(
    alloc: Global,
    app: &App,
    classes: &ClassGraph,
    index: Index,
    numbered: Numbered,
) -> Result<CallGraph, TargetFault>
    requires classes { IsClassGraph app.now classes.now }
    requires index { IsIndex app.now index }
    requires numbered { IsNumbered app.now numbered }
    ensures graph { IfOk result (IsCallGraph app.now) }
    ensures few { IfOk result (λ graph. entry_count app.now ≤ limit_of Targets) }
    ensures cause { IfErr result (IsCause app.now) }
{
    app.told();
    let sets = make_sets(alloc, app, classes, index, numbered.rows)?;
    Ok(CallGraph::new(sets, numbered.uses))
}

/// What each call of an application can call. An entry is a method in a set of one kind of invoke and one
/// named method, of invoke-super in one class; `Limit` comes where all sets have too many.
pub fn targets(alloc: Global, app: &App, classes: &ClassGraph) -> Result<CallGraph, TargetFault>
    requires { IsClassGraph app.now classes.now }
    ensures graph { IfOk result (IsCallGraph app.now) }
    ensures few { IfOk result (λ graph. entry_count app.now ≤ limit_of Targets) }
    ensures cause { IfErr result (IsCause app.now) }
{
    let Ok(index) = make_index(alloc, app) else {
        return Err(TargetFault::Memory);
    };
    match number_calls(alloc, app, &index) {
        Ok(numbered) => graph_of(alloc, app, classes, index, numbered),
        Err(AllocError) => Err(TargetFault::Memory),
    }
}
