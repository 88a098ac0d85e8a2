//! Small applications for tests that cross crates: from the bytes of a DEX file over reading and linking to what is found
//! of its code. `data/` has the applications as texts and as the files that `tools/assemble.py` makes of them.
#![tactic(auto)]

ghost use Rattle.std.specs.Prelude.{◌≤◌, IfOk, length};
ghost use Rattle.ns_base.specs.Answers.{limit_of};
ghost use Rattle.ns_base.specs.declared.answers.Counted.TheVariants.{Sites};
ghost use Rattle.dex_file.specs.Sizes.{IsShort};
ghost use Rattle.app_model.specs.Components.{BelongsTo};
ghost use Rattle.app_model.specs.Sites.{sites_below};
ghost use Rattle.app_model.specs.Targets.{IsCallGraph};
ghost use Rattle.class_graph.specs.Belongs.{IsClassGraph};

use app_link::link;
use app_model::{App, CallGraph, ComponentTable, Subject, TagTable};
use call_targets::targets;
use class_graph::{ClassGraph, build};
use component_list::{bind_list, read_list};
use dex_file::{DexParts, read_dex};
use scope_check::{ScopeFault, scope};
use std::alloc::{AllocError, Global};
use tag_flow::{TagFault, tags};

#[cfg(test)]
mod tests;

/// Why there is no subject. Whatever comes before its tags counts as want of memory.
#[derive(Drop)]
pub enum Stop {
    Early,
    Tags(TagFault),
    Scope(ScopeFault),
}

fn link_parts(alloc: Global, file: DexParts) -> Result<App, AllocError>
    requires { IsShort file }
    ensures { IfOk result (λ app. sites_below app (length app.methods) ≤ limit_of Sites) }
{
    let mut files = Vec::with_capacity(alloc, 1)?;
    files.push(file)?;
    match link(alloc, files) {
        Ok(app) => Ok(app),
        Err(_) => Err(AllocError),
    }
}

/// The application of one DEX file. A file that is refused counts as want of memory.
pub fn link_file(alloc: Global, bytes: &[u8]) -> Result<App, AllocError>
    requires { length bytes.now ≤ 33554432 }
    ensures { IfOk result (λ app. sites_below app (length app.methods) ≤ limit_of Sites) }
{
    match read_dex(alloc, bytes) {
        Ok(file) => link_parts(alloc, file),
        Err(_) => Err(AllocError),
    }
}

/// What can be called.
pub fn calls_of(alloc: Global, app: &App, classes: &ClassGraph) -> Result<CallGraph, AllocError>
    requires { IsClassGraph app.now classes.now }
    ensures { IfOk result (IsCallGraph app.now) }
{
    match targets(alloc, app, classes) {
        Ok(graph) => Ok(graph),
        Err(_) => Err(AllocError),
    }
}

/// The components of a list's text.
pub fn list_of(
    alloc: Global,
    app: &App,
    classes: &ClassGraph,
    text: &[u8],
) -> Result<ComponentTable, AllocError>
    requires { IsClassGraph app.now classes.now }
    ensures { IfOk result (BelongsTo app.now) }
{
    let Ok(listed) = read_list(alloc, text) else {
        return Err(AllocError);
    };
    match bind_list(alloc, &listed, app, classes) {
        Ok(list) => Ok(list),
        Err(_) => Err(AllocError),
    }
}

/// The tags of an application under a list.
pub fn tags_of(alloc: Global, app: &App, text: &[u8]) -> Result<TagTable, Stop>
    requires { sites_below app.now (length app.now.methods) ≤ limit_of Sites }
{
    let Ok(classes) = build(alloc, app) else {
        return Err(Stop::Early);
    };
    let Ok(graph) = calls_of(alloc, app, &classes) else {
        return Err(Stop::Early);
    };
    let Ok(list) = list_of(alloc, app, &classes, text) else {
        return Err(Stop::Early);
    };
    match tags(alloc, app, &classes, &graph, &list) {
        Ok(table) => Ok(table),
        Err(fault) => Err(Stop::Tags(fault)),
    }
}

/// The subject of an application under a list.
pub fn subject_of(alloc: Global, app: App, text: &[u8]) -> Result<Subject, Stop>
    requires { sites_below app (length app.methods) ≤ limit_of Sites }
{
    let Ok(classes) = build(alloc, &app) else {
        return Err(Stop::Early);
    };
    let Ok(graph) = calls_of(alloc, &app, &classes) else {
        return Err(Stop::Early);
    };
    let Ok(list) = list_of(alloc, &app, &classes, text) else {
        return Err(Stop::Early);
    };
    let table = match tags(alloc, &app, &classes, &graph, &list) {
        Ok(table) => table,
        Err(fault) => return Err(Stop::Tags(fault)),
    };
    match scope(alloc, app, &classes, graph, list, table) {
        Ok(subject) => Ok(subject),
        Err(fault) => Err(Stop::Scope(fault)),
    }
}
