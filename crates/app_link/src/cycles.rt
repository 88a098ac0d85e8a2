//! The search for a class that is its own ancestor. Ranks tell most classes apart in one pass: where each
//! class of an even rank has parents of lower ranks alone, and each of an odd rank none of a higher one,
//! no class of an even rank is its own ancestor. Only the others are searched for one by one.
ghost use Rattle.std.specs.Prelude.{◌≡◌, ◌≤◌, ◌<◌, ◌↔◌, ◌^◌, ℕ, length, true, false, replicate, slice_get, slice_index, Some, Contains, IfOk, IsTrue};
ghost use Rattle.ns_base.specs.declared.rows.TypeNo.{TypeNo};
ghost use Rattle.app_model.specs.Ancestors.{IsParent, IsAncestor, IsCyclic};
ghost use Rattle.app_link.specs.Cycles.{AreParentsBelow, AreRanked, AreTypesBelow, Marks, IsMarked, IsMet, IsDone, AreAncestors, AreDone, unmarked, IsCycleAnswer, Climbs};

use crate::ranks::{class_table, rank_types};
use app_model::ClassRow;
use app_rows::number_at;
use ns_base::TypeNo;
use std::alloc::{AllocError, Global};

fn is_parent_below(ranks: &[u32], parent: Option<TypeNo>, limit: u64) -> bool
    ensures { IsTrue result → (u : ℕ) → parent ≡ Some (record { 0 = u }) → slice_index ranks.now u < limit }
{
    match parent {
        Some(parent) => u64::from(number_at(ranks, parent.0)) < limit,
        None => true,
    }
}

fn are_below(ranks: &[u32], list: &[TypeNo], limit: u64) -> bool
    ensures { IsTrue result → (i : ℕ) (t : TypeNo) → slice_get list.now i ≡ Some t → slice_index ranks.now t.0 < limit }
{
    for i in 0..list.len() {
        if u64::from(number_at(ranks, list[i].0)) >= limit {
            return false;
        }
    }
    true
}

fn are_parents_below(ranks: &[u32], class: &ClassRow, limit: u64) -> bool
    ensures { IsTrue result → AreParentsBelow ranks.now class.now limit }
{
    is_parent_below(ranks, class.parent, limit) && are_below(ranks, &class.interfaces, limit)
}

fn are_ranked(ranks: &[u32], classes: &[ClassRow]) -> bool
    ensures { IsTrue result → AreRanked ranks.now classes.now }
{
    for c in 0..classes.len() {
        let class = &classes[c];
        let rank = u64::from(number_at(ranks, class.name.0));
        if !are_parents_below(ranks, class, rank + rank % 2) {
            return false;
        }
    }
    true
}

// Marks a type, and tells whether it was not marked.
fn mark(marks: &mut Vec<bool>, kind: TypeNo) -> bool
    requires { kind.0 < length marks.old.items }
    ensures marks { Marks marks.old.items marks.new.items result (λ u. u ≡ kind.0) }
    ensures marked { IsMarked marks.new.items kind.0 }
{
    let place = kind.0 as usize;
    let new = !marks[place];
    marks[place] = true;
    new
}

fn mark_parent(marks: &mut Vec<bool>, parent: Option<TypeNo>) -> bool
    requires { (u : ℕ) → parent ≡ Some (record { 0 = u }) → u < length marks.old.items }
    ensures marks { Marks marks.old.items marks.new.items result (λ u. parent ≡ Some (record { 0 = u })) }
    ensures marked { (u : ℕ) → parent ≡ Some (record { 0 = u }) → IsMarked marks.new.items u }
{
    match parent {
        Some(parent) => mark(marks, parent),
        None => false,
    }
}

fn mark_list(marks: &mut Vec<bool>, list: &[TypeNo]) -> bool
    requires { (i : ℕ) (t : TypeNo) → slice_get list.now i ≡ Some t → t.0 < length marks.old.items }
    ensures marks { Marks marks.old.items marks.new.items result (λ u. Contains list.now (record { 0 = u })) }
    ensures marked { (i : ℕ) (t : TypeNo) → slice_get list.now i ≡ Some t → IsMarked marks.new.items t.0 }
{
    let mut changed = false;
    for i in 0..list.len() {
        changed |= mark(marks, list[i]);
    }
    changed
}

fn mark_parents(marks: &mut Vec<bool>, class: &ClassRow) -> bool
    requires { (u : ℕ) → IsParent class.now u → u < length marks.old.items }
    ensures marks { Marks marks.old.items marks.new.items result (IsParent class.now) }
    ensures marked { (u : ℕ) → IsParent class.now u → IsMarked marks.new.items u }
{
    let first = mark_parent(marks, class.parent);
    let others = mark_list(marks, &class.interfaces);
    first | others
}

fn is_marked(marks: &[bool], kind: u32) -> bool
    ensures { IsTrue result ↔ IsMarked marks.now kind }
{
    match marks.get(kind as usize) {
        Some(mark) => *mark,
        None => false,
    }
}

fn is_met(start: u32, marks: &[bool], class: &ClassRow) -> bool
    ensures { IsTrue result ↔ IsMet start marks.now class.now }
{
    class.name.0 == start || is_marked(marks, class.name.0)
}

// Marks the parents of a class that is met.
fn visit(start: u32, marks: &mut Vec<bool>, class: &ClassRow) -> bool
    requires { (u : ℕ) → IsParent class.now u → u < length marks.old.items }
    ensures marks { Marks marks.old.items marks.new.items result (λ u. IsMet start marks.old.items class.now × IsParent class.now u) }
    ensures done { result ≡ false → IsDone start marks.new.items class.now }
{
    if is_met(start, marks, class) {
        mark_parents(marks, class)
    } else {
        false
    }
}

// One visit of each class, and whether more was marked.
fn visit_all(start: u32, marks: &mut Vec<bool>, classes: &[ClassRow]) -> bool
    requires { AreTypesBelow classes.now (length marks.old.items) }
    ensures len { length marks.new.items ≡ length marks.old.items }
    ensures ancestors { AreAncestors classes.now start marks.old.items → AreAncestors classes.now start marks.new.items }
    ensures done { result ≡ false → AreDone classes.now start marks.new.items (length classes.now) }
    ensures fewer { result ≡ true → unmarked marks.new.items < unmarked marks.old.items }
{
    let mut changed = false;
    for c in 0..classes.len() {
        changed |= visit(start, marks, &classes[c]);
    }
    changed
}

// Above the type, and not below `bound`.
fn above_parent(parent: Option<TypeNo>, bound: usize) -> usize
    requires { bound ≤ 2 ^ 32 }
    ensures more { bound ≤ result }
    ensures limit { result ≤ 2 ^ 32 }
    ensures types { (u : ℕ) → parent ≡ Some (record { 0 = u }) → u < result }
{
    match parent {
        Some(parent) => bound.max(parent.0 as usize + 1),
        None => bound,
    }
}

fn above_list(list: &[TypeNo], bound: usize) -> usize
    requires { bound ≤ 2 ^ 32 }
    ensures more { bound ≤ result }
    ensures limit { result ≤ 2 ^ 32 }
    ensures types { (i : ℕ) (t : TypeNo) → slice_get list.now i ≡ Some t → t.0 < result }
{
    let mut above = bound;
    for i in 0..list.len() {
        above = above.max(list[i].0 as usize + 1);
    }
    above
}

fn above_parents(class: &ClassRow, bound: usize) -> usize
    requires { bound ≤ 2 ^ 32 }
    ensures more { bound ≤ result }
    ensures limit { result ≤ 2 ^ 32 }
    ensures parents { (u : ℕ) → IsParent class.now u → u < result }
{
    above_list(&class.interfaces, above_parent(class.parent, bound))
}

fn type_bound(classes: &[ClassRow]) -> usize
    ensures types { AreTypesBelow classes.now result }
    ensures limit { result ≤ 2 ^ 32 }
{
    let mut bound = 0;
    for c in 0..classes.len() {
        bound = above_parents(&classes[c], bound);
    }
    bound
}

fn mark_all(start: u32, marks: &mut Vec<bool>, classes: &[ClassRow])
    requires { AreTypesBelow classes.now (length marks.old.items) }
    ensures ancestors { AreAncestors classes.now start marks.old.items → AreAncestors classes.now start marks.new.items }
    ensures done { AreDone classes.now start marks.new.items (length classes.now) }
{
    while visit_all(start, marks, classes) {}
}

// Marks a type, and puts it on the stack where it was not marked.
fn mark_open(marks: &mut Vec<bool>, open: &mut Vec<u32>, kind: TypeNo) -> Result<(), AllocError>
    requires { kind.0 < length marks.old.items }
    ensures { Climbs marks.old.items marks.new.items (λ u. u ≡ kind.0) }
{
    if mark(marks, kind) {
        open.push(kind.0)?;
    }
    Ok(())
}

fn climb_parent(
    marks: &mut Vec<bool>,
    open: &mut Vec<u32>,
    parent: Option<TypeNo>,
) -> Result<(), AllocError>
    requires { (u : ℕ) → parent ≡ Some (record { 0 = u }) → u < length marks.old.items }
    ensures { Climbs marks.old.items marks.new.items (λ u. parent ≡ Some (record { 0 = u })) }
{
    match parent {
        Some(parent) => mark_open(marks, open, parent),
        None => Ok(()),
    }
}

fn climb_list(marks: &mut Vec<bool>, open: &mut Vec<u32>, list: &[TypeNo]) -> Result<(), AllocError>
    requires { (i : ℕ) (t : TypeNo) → slice_get list.now i ≡ Some t → t.0 < length marks.old.items }
    ensures { Climbs marks.old.items marks.new.items (λ u. Contains list.now (record { 0 = u })) }
{
    for i in 0..list.len() {
        mark_open(marks, open, list[i])?;
    }
    Ok(())
}

fn climb_parents(
    marks: &mut Vec<bool>,
    open: &mut Vec<u32>,
    class: &ClassRow,
) -> Result<(), AllocError>
    requires { (u : ℕ) → IsParent class.now u → u < length marks.old.items }
    ensures { Climbs marks.old.items marks.new.items (IsParent class.now) }
{
    climb_parent(marks, open, class.parent)?;
    climb_list(marks, open, &class.interfaces)
}

// Climbs from a class that is met, so that nothing has to be known of the stack or of the table.
fn climb_class(
    start: u32,
    marks: &mut Vec<bool>,
    open: &mut Vec<u32>,
    class: &ClassRow,
) -> Result<(), AllocError>
    requires { (u : ℕ) → IsParent class.now u → u < length marks.old.items }
    ensures { Climbs marks.old.items marks.new.items (λ u. IsMet start marks.old.items class.now × IsParent class.now u) }
{
    if is_met(start, marks, class) {
        climb_parents(marks, open, class)
    } else {
        Ok(())
    }
}

fn climb_from(
    start: u32,
    marks: &mut Vec<bool>,
    open: &mut Vec<u32>,
    classes: &[ClassRow],
    place: usize,
) -> Result<(), AllocError>
    requires { AreTypesBelow classes.now (length marks.old.items) }
    ensures len { length marks.new.items ≡ length marks.old.items }
    ensures ancestors { AreAncestors classes.now start marks.old.items → AreAncestors classes.now start marks.new.items }
{
    if place < classes.len() {
        climb_class(start, marks, open, &classes[place])
    } else {
        Ok(())
    }
}

// Takes one type from the stack; false where there is none.
fn climb_once(
    start: u32,
    marks: &mut Vec<bool>,
    open: &mut Vec<u32>,
    classes: &[ClassRow],
    table: &[u32],
) -> Result<bool, AllocError>
    requires { AreTypesBelow classes.now (length marks.old.items) }
    ensures len { length marks.new.items ≡ length marks.old.items }
    ensures ancestors { AreAncestors classes.now start marks.old.items → AreAncestors classes.now start marks.new.items }
{
    let Some(kind) = open.pop() else {
        return Ok(false);
    };
    let number = number_at(table, kind);
    if number > 0 {
        climb_from(start, marks, open, classes, number as usize - 1)?;
    }
    Ok(true)
}

// Marks what is above the type, from class to class. It may miss some, which the visits of all classes
// find; but without it a long way up against the order of the classes took a visit of all for each step.
// A type is put on the stack when it is marked, so there are at most as many steps as types, and the first.
fn climb(
    alloc: Global,
    start: u32,
    marks: &mut Vec<bool>,
    classes: &[ClassRow],
) -> Result<(), AllocError>
    requires classes { length classes.now < 2 ^ 32 }
    requires types { AreTypesBelow classes.now (length marks.old.items) }
    ensures len { length marks.new.items ≡ length marks.old.items }
    ensures ancestors { AreAncestors classes.now start marks.old.items → AreAncestors classes.now start marks.new.items }
{
    let table = class_table(alloc, classes)?;
    let mut open = Vec::new(alloc);
    open.push(start)?;
    for _ in 0..=marks.len() {
        if !climb_once(start, marks, &mut open, classes, &table)? {
            return Ok(());
        }
    }
    Ok(())
}

fn no_marks(alloc: Global, count: usize) -> Result<Vec<bool>, AllocError>
    ensures { IfOk result (λ marks. marks.items ≡ replicate count false) }
{
    vec![in alloc; false; count]
}

// Whether a type is above itself, by marking all that is.
fn search(alloc: Global, start: u32, classes: &[ClassRow]) -> Result<bool, AllocError>
    requires { length classes.now < 2 ^ 32 }
    ensures { IfOk result (λ found. IsTrue found ↔ IsAncestor classes.now start start) }
{
    let mut marks = no_marks(alloc, type_bound(classes))?;
    climb(alloc, start, &mut marks, classes)?;
    mark_all(start, &mut marks, classes);
    let found = is_marked(&marks, start);
    Ok(found)
}

fn is_own_ancestor(
    alloc: Global,
    ranks: &[u32],
    ranked: bool,
    class: &ClassRow,
    classes: &[ClassRow],
) -> Result<bool, AllocError>
    requires ranked { IsTrue ranked → AreRanked ranks.now classes.now }
    requires classes { length classes.now < 2 ^ 32 }
    ensures { IfOk result (λ found. IsTrue found ↔ IsCyclic classes.now class.now) }
{
    if ranked && number_at(ranks, class.name.0) % 2 == 0 {
        return Ok(false);
    }
    search(alloc, class.name.0, classes)
}

/// The first class that is its own ancestor.
pub fn find_cycle(alloc: Global, classes: &[ClassRow]) -> Result<Option<u32>, AllocError>
    requires { length classes.now < 2 ^ 32 }
    ensures { IfOk result (IsCycleAnswer classes.now) }
{
    let ranks = rank_types(alloc, classes)?;
    let ranked = are_ranked(&ranks, classes);
    for c in 0..classes.len() {
        if is_own_ancestor(alloc, &ranks, ranked, &classes[c], classes)? {
            return Ok(Some(c as u32));
        }
    }
    Ok(None)
}
