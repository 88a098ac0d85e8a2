//! From a component list and the bytes of DEX files to a subject in scope, or to the first refusal.
ghost use Rattle.std.specs.Prelude.{◌≡◌, ◌≤◌, ℕ, List, length, map, IfOk, Ok};
ghost use Rattle.ns_base.specs.Answers.{limit_of};
ghost use Rattle.ns_base.specs.declared.answers.Counted.TheVariants.{Sites, Targets};
ghost use Rattle.app_model.specs.Components.{BelongsTo};
ghost use Rattle.app_model.specs.Sites.{sites_below};
ghost use Rattle.app_model.specs.Targets.{IsCallGraph, entry_count};
ghost use Rattle.class_graph.specs.Belongs.{IsClassGraph};
ghost use Rattle.flow_model.specs.TagFlow.{IsTagTableOf};
ghost use Rattle.app_link.specs.Linking.{AreShort};
ghost use Rattle.component_list.specs.Binding.{bound_of};
ghost use Rattle.component_list.specs.Listed.{IsReadList, ListedParts};
ghost use Rattle.component_list.specs.Reading.{listed_of};
ghost use Rattle.nosleep.specs.Files.{AreContents, AreSmall, IsApplication, IsWithinLimits};
ghost use Rattle.nosleep.specs.Outcome.{HasFound};

use crate::contents::{Contents, read_contents};
use crate::refusing::{
    Answer, refuse_file, refuse_link, refuse_list, refuse_scope, refuse_tags, refuse_targets,
};
use app_link::link;
use app_model::{App, CallGraph, ComponentTable, Subject, TagTable};
use call_targets::targets;
use class_graph::{ClassGraph, build};
use component_list::{Listed, bind_list, read_list};
use dex_file::DexParts;
use ns_base::OutOfMemory;
use scope_check::scope;
use std::alloc::{AllocError, Global};
use tag_flow::tags;

/// What a list and DEX files come to.
#[derive(Drop)]
pub enum Found {
    /// A subject in scope.
    Subject(Subject),
    /// The answer to the first refusal.
    Refused(Answer),
}

/// What DEX files come to under the list of these bytes.
pub fn find_by_list(alloc: Global, list: &[u8], files: &[Vec<u8>]) -> Result<Found, AllocError>
    requires list { length list.now ≤ 33554432 }
    requires few { length files.now ≤ 16 }
    requires short { AreSmall files.now }
    ensures { IfOk result (HasFound (listed_of list.now) (map (λ bytes. bytes.items) files.now)) }
{
    match read_list(alloc, list) {
        Ok(listed) => find_listed(alloc, &listed, files),
        Err(fault) => Ok(Found::Refused(refuse_list(alloc, fault)?)),
    }
}

/// What DEX files come to under a list.
pub fn find_listed(alloc: Global, listed: &Listed, files: &[Vec<u8>]) -> Result<Found, AllocError>
    requires list { IsReadList listed.now }
    requires few { length files.now ≤ 16 }
    requires short { AreSmall files.now }
    ensures { IfOk result (HasFound (Ok listed.now) (map (λ bytes. bytes.items) files.now)) }
{
    match read_contents(alloc, files)? {
        Contents::Bad(number, fault) => Ok(Found::Refused(refuse_file(alloc, number, fault)?)),
        Contents::Read(parts) => find_in_parts(alloc, listed, files, parts),
    }
}

// What the contents of files come to.
fn find_in_parts(
    alloc: Global,
    listed: &Listed,
    files: &[Vec<u8>],
    parts: Vec<DexParts>,
) -> Result<Found, AllocError>
    requires list { IsReadList listed.now }
    requires short { AreSmall files.now }
    requires parts { AreShort parts.items }
    requires contents { AreContents (map (λ bytes. bytes.items) files.now) parts.items }
    ensures { IfOk result (HasFound (Ok listed.now) (map (λ bytes. bytes.items) files.now)) }
{
    match link(alloc, parts) {
        Ok(app) => find_in_app(alloc, listed, app),
        Err(fault) => Ok(Found::Refused(refuse_link(alloc, files, fault)?)),
    }
}

// What an application comes to.
fn find_in_app(alloc: Global, listed: &Listed, app: App) -> Result<Found, AllocError>
    requires list { IsReadList listed.now }
    requires sites { sites_below app (length app.methods) ≤ limit_of Sites }
    ensures { (files : List (List ℕ)) → IsApplication files app → IfOk result (HasFound (Ok listed.now) files) }
{
    let classes = match build(alloc, &app) {
        Ok(classes) => classes,
        Err(OutOfMemory) => return Err(AllocError),
    };
    match bind_list(alloc, listed, &app, &classes) {
        Ok(list) => find_bound(alloc, app, &classes, list),
        Err(fault) => Ok(Found::Refused(refuse_list(alloc, fault)?)),
    }
}

// With its components.
fn find_bound(
    alloc: Global,
    app: App,
    classes: &ClassGraph,
    list: ComponentTable,
) -> Result<Found, AllocError>
    requires classes { IsClassGraph app classes.now }
    requires list { BelongsTo app list }
    requires sites { sites_below app (length app.methods) ≤ limit_of Sites }
    ensures { (rows : List ListedParts) (files : List (List ℕ)) → IsApplication files app → bound_of app rows ≡ Ok list
        → IfOk result (HasFound (Ok rows) files) }
{
    match targets(alloc, &app, classes) {
        Ok(graph) => find_called(alloc, app, classes, graph, list),
        Err(fault) => Ok(Found::Refused(refuse_targets(alloc, fault)?)),
    }
}

// With what its calls can call.
fn find_called(
    alloc: Global,
    app: App,
    classes: &ClassGraph,
    graph: CallGraph,
    list: ComponentTable,
) -> Result<Found, AllocError>
    requires classes { IsClassGraph app classes.now }
    requires graph { IsCallGraph app graph }
    requires few { entry_count app ≤ limit_of Targets }
    requires list { BelongsTo app list }
    requires sites { sites_below app (length app.methods) ≤ limit_of Sites }
    ensures { (rows : List ListedParts) (files : List (List ℕ)) → IsApplication files app → bound_of app rows ≡ Ok list
        → IfOk result (HasFound (Ok rows) files) }
{
    match tags(alloc, &app, classes, &graph, &list) {
        Ok(table) => find_tagged(alloc, app, classes, graph, list, table),
        Err(fault) => Ok(Found::Refused(refuse_tags(alloc, fault)?)),
    }
}

// With its tags.
fn find_tagged(
    alloc: Global,
    app: App,
    classes: &ClassGraph,
    graph: CallGraph,
    list: ComponentTable,
    table: TagTable,
) -> Result<Found, AllocError>
    requires classes { IsClassGraph app classes.now }
    requires within { IsWithinLimits app graph list }
    requires list { BelongsTo app list }
    requires tags { IsTagTableOf app graph list table }
    ensures { (rows : List ListedParts) (files : List (List ℕ)) → IsApplication files app → bound_of app rows ≡ Ok list
        → IfOk result (HasFound (Ok rows) files) }
{
    match scope(alloc, app, classes, graph, list, table) {
        Ok(subject) => Ok(Found::Subject(subject)),
        Err(fault) => Ok(Found::Refused(refuse_scope(alloc, &fault)?)),
    }
}
