//! The set of one source, by look-ups in the classes that tell.
ghost use Rattle.std.specs.Prelude.{◌≡◌, ◌<◌, ◌++◌, ◌∷◌, [], ℕ, IfOk, List, Option, is_none, length, map, take};
ghost use Rattle.std.specs.List.{All};
ghost use Rattle.ns_base.specs.declared.rows.ClassNo.{ClassNo};
ghost use Rattle.class_graph.specs.Answers.{found_number};
ghost use Rattle.class_graph.specs.Belongs.{IsClassGraph};
ghost use Rattle.app_model.specs.Hierarchy.{lookup_of};
ghost use Rattle.app_model.specs.Targets.{found_virtually, row_of as row_of_spec};
ghost use Rattle.call_targets.specs.Looking.{AreEnough, AreFound, IsAsked, IsMaker, begins, look_at, tried_of};
ghost use Rattle.call_targets.specs.Sources.{IsIndex, named_parts, row_from};

use crate::below::Below;
use crate::children::{Children, find_children};
use crate::found::row_of;
use crate::sources::{Index, Source};
use app_model::{App, TargetRow};
use class_graph::{ClassGraph, Found};
use ns_base::{ClassNo, NameNo, ProtoNo, TypeNo};
use std::alloc::{AllocError, Global};
use std::marker::Model;

/// What look-ups go by: what is known of names, the classes right below each type, and all those below the
/// type that was asked for last.
#[derive(Drop)]
pub(crate) struct Maker {
    index: Index,
    children: Children,
    kind: Option<TypeNo>,
    below: Below,
}

impl Model for Maker {
    ghost use Rattle.call_targets.specs.Looking.{MakerParts};

    ghost Value = { MakerParts };

    ghost view = { λ m. record { index = m.index; children = m.children; kind = m.kind; below = m.below } };
}

// The outside, where a type is none of the application's.
fn begin(alloc: Global, app: &App, kind: TypeNo) -> Result<Vec<Found>, AllocError>
    ensures { IfOk result (λ found. AreFound app.now (begins app.now kind.0) found.items) }
{
    let mut found = Vec::new(alloc);
    if app.class_of_type(kind).is_none() {
        found.push(Found::Outside)?;
    }
    Ok(found)
}

fn is_outside(found: Found) -> bool
    ensures { result ≡ is_none (found_number found) }
{
    match found {
        Found::App(_) => false,
        Found::Outside => true,
    }
}

// What is found in a class, and whether that is outside.
fn look_next(
    app: &App,
    classes: &ClassGraph,
    source: Source,
    class: ClassNo,
    found: &mut Vec<Found>,
) -> Result<bool, AllocError>
    requires graph { IsClassGraph app.now classes.now }
    requires class { class.0 < length app.now.classes }
    ensures found { IfOk result (λ outside. (numbers : List (Option ℕ)) → AreFound app.now numbers found.old.items → AreFound app.now (numbers ++ look_at app.now source.name source.proto class ∷ []) found.new.items) }
    ensures outside { IfOk result (λ outside. outside ≡ is_none (look_at app.now source.name source.proto class)) }
{
    let next = classes.lookup(class, NameNo(source.name), ProtoNo(source.proto));
    found.push(next)?;
    Ok(is_outside(next))
}

// What is found in each of some classes.
fn look_all(
    app: &App,
    classes: &ClassGraph,
    source: Source,
    tried: &[ClassNo],
    found: &mut Vec<Found>,
) -> Result<(), AllocError>
    requires graph { IsClassGraph app.now classes.now }
    requires tried { All (λ (c : ClassNo). c.0 < length app.now.classes) tried.now }
    ensures { IfOk result (λ done. (numbers : List (Option ℕ)) → AreFound app.now numbers found.old.items → AreFound app.now (numbers ++ map (look_at app.now source.name source.proto) tried.now) found.new.items) }
{
    for i in 0..tried.len() {
        look_next(app, classes, source, tried[i], found)?;
    }
    Ok(())
}

// What is found in tops, up to the first from which a look-up ends outside; how many were asked.
fn look_tops(
    app: &App,
    classes: &ClassGraph,
    source: Source,
    tops: &[ClassNo],
    found: &mut Vec<Found>,
) -> Result<usize, AllocError>
    requires graph { IsClassGraph app.now classes.now }
    requires tops { All (λ (c : ClassNo). c.0 < length app.now.classes) tops.now }
    ensures found { IfOk result (λ n. (numbers : List (Option ℕ)) → AreFound app.now numbers found.old.items → AreFound app.now (numbers ++ map (look_at app.now source.name source.proto) (take n tops.now)) found.new.items) }
    ensures enough { IfOk result (AreEnough app.now source.name source.proto tops.now) }
{
    for i in 0..tops.len() {
        if look_next(app, classes, source, tops[i], found)? {
            return Ok(i + 1);
        }
    }
    Ok(tops.len())
}

// What is found from one class.
fn look_one(app: &App, classes: &ClassGraph, class: TypeNo, source: Source) -> Found
    requires { IsClassGraph app.now classes.now }
    ensures { found_number result ≡ lookup_of app.now class.0 source.name source.proto }
{
    app.told();
    match app.class_of_type(class) {
        Some(class) => classes.lookup(class, NameNo(source.name), ProtoNo(source.proto)),
        None => Found::Outside,
    }
}

impl Maker {
    pub fn new(alloc: Global, app: &App, index: Index) -> Result<Maker, AllocError>
        requires { IsIndex app.now index }
        ensures { IfOk result (IsMaker app.now) }
    {
        Ok(Maker {
            index,
            children: find_children(alloc, app)?,
            kind: None,
            below: Below::new(alloc, app)?,
        })
    }

    // Makes the classes below a type ready.
    fn ask(&mut self, alloc: Global, app: &App, kind: TypeNo) -> Result<(), AllocError>
        requires { IsMaker app.now self.old }
        ensures { IfOk result (λ done. IsAsked app.now kind.0 self.new) }
    {
        if self.kind == Some(kind) {
            return Ok(());
        }
        self.below.find(alloc, app, &self.children, kind)?;
        self.kind = Some(kind);
        Ok(())
    }

    // The classes, tops aside, whose look-ups tell what all classes below the type find.
    fn tried(&self, alloc: Global, app: &App, source: Source) -> Result<Vec<ClassNo>, AllocError>
        requires { IsMaker app.now self.now }
        ensures { IfOk result (λ tried. tried.items ≡ tried_of app.now self.now source.name source.proto) }
    {
        let declaring = self
            .index
            .declaring(NameNo(source.name), ProtoNo(source.proto));
        self.below.candidates(alloc, app, declaring)
    }

    // The set of a look-up on a receiver.
    fn below_set(
        &mut self,
        alloc: Global,
        app: &App,
        classes: &ClassGraph,
        kind: TypeNo,
        source: Source,
    ) -> Result<TargetRow, AllocError>
        requires graph { IsClassGraph app.now classes.now }
        requires maker { IsMaker app.now self.old }
        ensures row { IfOk result (λ row. (m : ℕ) → row ≡ row_of_spec (length app.now.methods) (found_virtually app.now m (named_parts kind.0 source.name source.proto))) }
        ensures maker { IfOk result (λ row. IsMaker app.now self.new) }
    {
        app.told();
        self.ask(alloc, app, kind)?;
        let tried = self.tried(alloc, app, source)?;
        let mut found = begin(alloc, app, kind)?;
        look_all(app, classes, source, &tried, &mut found)?;
        look_tops(app, classes, source, self.below.tops(), &mut found)?;
        row_of(alloc, &found)
    }

    /// The set of a source.
    pub fn set(
        &mut self,
        alloc: Global,
        app: &App,
        classes: &ClassGraph,
        source: Source,
    ) -> Result<TargetRow, AllocError>
        requires graph { IsClassGraph app.now classes.now }
        requires maker { IsMaker app.now self.old }
        ensures row { IfOk result (λ row. row ≡ row_from app.now source) }
        ensures maker { IfOk result (λ row. IsMaker app.now self.new) }
    {
        if let Some(class) = source.one {
            return row_of(alloc, &[look_one(app, classes, TypeNo(class), source)]);
        }
        match source.below {
            Some(kind) => self.below_set(alloc, app, classes, TypeNo(kind), source),
            None => row_of(alloc, &[Found::Outside]),
        }
    }
}
