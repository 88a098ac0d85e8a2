//! The classes of the application that an object of one type may be of, found by a walk down from it.
ghost use Rattle.std.specs.Prelude.{◌≡◌, ◌<◌, ◌++◌, ◌||◌, if◌then◌else◌, IfOk, [], None, filter_map, is_none, length, slice_get};
ghost use Rattle.std.specs.List.{filter};
ghost use Rattle.app_model.specs.Hierarchy.{class_of_type, parent_of};
ghost use Rattle.app_model.specs.Sound.{IsType};
ghost use Rattle.call_targets.specs.Below.{AreChildren, IsReady, IsWalked, TellsBelow, class_at, is_met, is_met_class, is_root, root_from, roots_of, top_from, tops_of, with_some};

use crate::children::Children;
use crate::walk::Walk;
use app_model::App;
use class_graph::is_unknown;
use ns_base::{ClassNo, TypeNo};
use std::alloc::{AllocError, Global};
use std::marker::Model;

/// So few classes are all looked up, and not only those that declare the method.
const FEW: usize = 8;

/// The classes that were met on a walk down from a type, and those of them from which the others inherit:
/// roots, whose superclass was not met, and tops, which have none in the application. Where few were met,
/// all of them are roots.
#[derive(Drop)]
pub(crate) struct Below {
    walk: Walk,
    few: bool,
    roots: Vec<ClassNo>,
    tops: Vec<ClassNo>,
}

impl Model for Below {
    ghost use Rattle.call_targets.specs.Below.{BelowParts};

    ghost Value = { BelowParts };

    ghost view = { λ b. record { walk = b.walk; few = b.few; roots = b.roots.items; tops = b.tops.items } };
}

// All types of which the files say nothing.
fn meet_unknown(app: &App, walk: &mut Walk, kind: TypeNo) -> Result<(), AllocError>
    requires types { walk.old.types ≡ length app.now.types }
    requires outside { class_of_type app.now.classes kind.0 ≡ None }
    requires walked { IsWalked app.now kind.0 0 0 walk.old.kinds }
    ensures types { IfOk result (λ done. walk.new.types ≡ walk.old.types) }
    ensures walked { IfOk result (λ done. IsWalked app.now kind.0 (length app.now.types) 0 walk.new.kinds) }
{
    app.told();
    for t in 0..app.type_count() {
        if is_unknown(app, TypeNo(t)) {
            walk.meet(TypeNo(t))?;
        }
    }
    Ok(())
}

// The types with which a walk begins. Each type that is asked for is one of the tables'; another would be
// taken for want of memory.
fn begin(app: &App, walk: &mut Walk, kind: TypeNo) -> Result<(), AllocError>
    requires types { walk.old.types ≡ length app.now.types }
    ensures types { IfOk result (λ done. walk.new.types ≡ walk.old.types) }
    ensures walked { IfOk result (λ done. IsWalked app.now kind.0 (length app.now.types) 0 walk.new.kinds) }
{
    app.told();
    if kind.0 >= app.type_count() {
        return Err(AllocError);
    }
    walk.restart()?;
    walk.meet(kind)?;
    match app.class_of_type(kind) {
        Some(_) => Ok(()),
        None => meet_unknown(app, walk, kind),
    }
}

// From each type that was met to those right below it. A walk never has as many as can be counted.
fn walk_down(
    app: &App,
    children: &Children,
    walk: &mut Walk,
    kind: TypeNo,
) -> Result<(), AllocError>
    requires children { AreChildren app.now.classes (length app.now.types) children.now }
    requires types { walk.old.types ≡ length app.now.types }
    ensures types { IfOk result (λ done. walk.new.types ≡ walk.old.types) }
    ensures tells { IfOk result (λ done. TellsBelow app.now kind.0 walk.new.kinds) }
{
    app.told();
    begin(app, walk, kind)?;
    for place in 0..usize::MAX {
        if place >= walk.kinds().len() {
            return Ok(());
        }
        walk.meet_all(children.below(walk.kinds()[place]))?;
    }
    Err(AllocError)
}

#[tactic(auto, using(crate::proofs::Roots::class_told))]
fn class_at(app: &App, kind: TypeNo) -> Option<ClassNo>
    ensures { result ≡ class_at app.now kind }
{
    app.class_of_type(kind)
}

fn parent_met(app: &App, walk: &Walk, class: ClassNo) -> bool
    requires { walk.now.types ≡ length app.now.types }
    ensures { result ≡ is_met walk.now.kinds (parent_of (slice_get app.now.classes class.0)) }
{
    if class.0 >= app.class_count() {
        return false;
    }
    match app.class(class).parent {
        Some(parent) => walk.has(parent),
        None => false,
    }
}

fn is_root(app: &App, walk: &Walk, few: bool, class: ClassNo) -> bool
    requires { walk.now.types ≡ length app.now.types }
    ensures { result ≡ is_root app.now walk.now.kinds few class }
{
    few || (app.superclass(class).is_some() && !parent_met(app, walk, class))
}

// Adds a class, if there is one.
fn push_some(classes: &mut Vec<ClassNo>, class: Option<ClassNo>) -> Result<(), AllocError>
    ensures { IfOk result (λ done. classes.new.items ≡ with_some classes.old.items class) }
{
    if let Some(class) = class {
        classes.push(class)?;
    }
    Ok(())
}

fn root_at(app: &App, walk: &Walk, few: bool, kind: TypeNo) -> Option<ClassNo>
    requires { walk.now.types ≡ length app.now.types }
    ensures { result ≡ root_from app.now walk.now.kinds few (class_at app.now kind) }
{
    match class_at(app, kind) {
        Some(class) if is_root(app, walk, few, class) => Some(class),
        _ => None,
    }
}

fn find_roots(alloc: Global, app: &App, walk: &Walk, few: bool) -> Result<Vec<ClassNo>, AllocError>
    requires { walk.now.types ≡ length app.now.types }
    ensures { IfOk result (λ roots. roots.items ≡ roots_of app.now few walk.now.kinds walk.now.kinds) }
{
    let kinds = walk.kinds();
    let mut roots = Vec::new(alloc);
    for i in 0..kinds.len() {
        push_some(&mut roots, root_at(app, walk, few, kinds[i]))?;
    }
    Ok(roots)
}

fn top_at(app: &App, kind: TypeNo) -> Option<ClassNo>
    ensures { result ≡ top_from app.now (class_at app.now kind) }
{
    match class_at(app, kind) {
        Some(class) if app.superclass(class).is_none() => Some(class),
        _ => None,
    }
}

fn find_tops(
    alloc: Global,
    app: &App,
    walk: &Walk,
    few: bool,
    kind: TypeNo,
) -> Result<Vec<ClassNo>, AllocError>
    ensures { IfOk result (λ tops. tops.items ≡ (if few || is_none (class_of_type app.now.classes kind.0) then [] else tops_of app.now walk.now.kinds)) }
{
    let mut tops = Vec::new(alloc);
    if few || app.class_of_type(kind).is_none() {
        return Ok(tops);
    }
    let kinds = walk.kinds();
    for i in 0..kinds.len() {
        push_some(&mut tops, top_at(app, kinds[i]))?;
    }
    Ok(tops)
}

impl Below {
    /// Nothing yet.
    pub fn new(alloc: Global, app: &App) -> Result<Below, AllocError>
        ensures { IfOk result (λ below. below.walk.types ≡ length app.now.types) }
    {
        Ok(Below {
            walk: Walk::new(alloc, app.type_count() as usize)?,
            few: false,
            roots: Vec::new(alloc),
            tops: Vec::new(alloc),
        })
    }

    /// Finds the classes below a type.
    pub fn find(
        &mut self,
        alloc: Global,
        app: &App,
        children: &Children,
        kind: TypeNo,
    ) -> Result<(), AllocError>
        requires children { AreChildren app.now.classes (length app.now.types) children.now }
        requires types { self.old.walk.types ≡ length app.now.types }
        ensures { IfOk result (λ done. IsReady app.now kind.0 self.new) }
    {
        walk_down(app, children, &mut self.walk, kind)?;
        self.few = self.walk.kinds().len() <= FEW;
        self.roots = find_roots(alloc, app, &self.walk, self.few)?;
        self.tops = find_tops(alloc, app, &self.walk, self.few, kind)?;
        Ok(())
    }

    /// The classes from which the others inherit nothing that is not outside.
    pub fn tops(&self) -> &[ClassNo]
        ensures { result.now ≡ self.now.tops }
    {
        self.tops.as_slice()
    }

    fn is_met(&self, app: &App, class: ClassNo) -> bool
        requires { self.now.walk.types ≡ length app.now.types }
        ensures { result ≡ is_met_class app.now self.now.walk.kinds class }
    {
        class.0 < app.class_count() && self.walk.has(app.class(class).name)
    }

    /// The roots, and those of the declaring classes that were met. What a look-up finds in any class that
    /// was met it finds in one of these, or it ends outside from a top.
    #[tactic(auto, using(crate::proofs::Roots::passed_on, crate::proofs::Roots::passed_over))]
    pub fn candidates(
        &self,
        alloc: Global,
        app: &App,
        declaring: &[ClassNo],
    ) -> Result<Vec<ClassNo>, AllocError>
        requires { self.now.walk.types ≡ length app.now.types }
        ensures { IfOk result (λ classes. classes.items ≡ self.now.roots ++ (if self.now.few then [] else filter (is_met_class app.now self.now.walk.kinds) declaring.now)) }
    {
        let mut classes = self.roots.to_vec(alloc)?;
        if self.few {
            return Ok(classes);
        }
        for i in 0..declaring.len() {
            if self.is_met(app, declaring[i]) {
                classes.push(declaring[i])?;
            }
        }
        Ok(classes)
    }
}
