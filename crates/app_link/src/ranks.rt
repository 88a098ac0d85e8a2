//! Ranks of types: a class ranks above its superclass and interfaces, or together with those of them
//! that it is an ancestor of. A rank is odd where the class is its own ancestor. Found in one walk over
//! the strongly connected components, by Tarjan's way, with no recursion. Nothing is promised of the
//! ranks: who uses them tests them.
ghost use Rattle.std.specs.Prelude.{◌<◌, ◌^◌, length};

use app_model::ClassRow;
use app_rows::number_at;
use ns_base::TypeNo;
use std::alloc::{AllocError, Global};

// A class on the way, and which of its parents comes next: the superclass is 0, then the interfaces.
#[derive(Clone, Copy)]
struct Step {
    class: u32,
    next: u32,
}

#[derive(Drop)]
struct Walk {
    // The class of each type, by its number and 1; 0 for none.
    class_of: Vec<u32>,
    // When each class was met, from 1 on; 0 before.
    met: Vec<u32>,
    // The earliest that each class leads back to.
    back: Vec<u32>,
    // By type; 0 before the class has one.
    ranks: Vec<u32>,
    path: Vec<Step>,
    // Classes that were met and have no rank.
    open: Vec<u32>,
    count: u32,
    rank: u32,
}

fn put(list: &mut Vec<u32>, place: u32, number: u32) {
    if let Some(old) = list.get_mut(place as usize) {
        *old = number;
    }
}

// One more than the largest type that names a class.
fn name_bound(classes: &[ClassRow]) -> usize {
    let mut bound = 0;
    for c in 0..classes.len() {
        let class = &classes[c];
        bound = class.name.0.max(bound);
    }
    bound as usize + 1
}

/// The class of each type, by its number and 1; 0 for none. Nothing is promised of it: who uses it tests it.
pub fn class_table(alloc: Global, classes: &[ClassRow]) -> Result<Vec<u32>, AllocError>
    requires { length classes.now < 2 ^ 32 }
{
    let mut table = vec![in alloc; 0; name_bound(classes)]?;
    for c in 0..classes.len() {
        let class = &classes[c];
        put(&mut table, class.name.0, (c as u32).saturating_add(1));
    }
    Ok(table)
}

// No type where the class has no superclass; `None` after the last parent.
fn parent_at(class: &ClassRow, n: u32) -> Option<Option<TypeNo>> {
    if n == 0 {
        return Some(class.parent);
    }
    match class.interfaces.get(n as usize - 1) {
        Some(kind) => Some(Some(*kind)),
        None => None,
    }
}

// Whether a class has itself as a parent.
fn names_itself(classes: &[ClassRow], class: u32) -> bool {
    let Some(row) = classes.get(class as usize) else {
        return false;
    };
    if row.parent == Some(row.name) {
        return true;
    }
    for i in 0..row.interfaces.len() {
        if row.interfaces[i] == row.name {
            return true;
        }
    }
    false
}

impl Walk {
    fn enter(&mut self, class: u32) -> Result<(), AllocError> {
        self.count = self.count.saturating_add(1);
        put(&mut self.met, class, self.count);
        put(&mut self.back, class, self.count);
        self.open.push(class)?;
        self.path.push(Step { class, next: 0 })?;
        Ok(())
    }

    fn lead_back(&mut self, class: u32, to: u32) {
        let back = number_at(&self.back, class).min(to);
        put(&mut self.back, class, back);
    }

    fn look(&mut self, class: u32, parent: TypeNo) -> Result<(), AllocError> {
        let other = number_at(&self.class_of, parent.0);
        if other == 0 {
            return Ok(());
        }
        let met = number_at(&self.met, other - 1);
        if met == 0 {
            self.enter(other - 1)?;
        } else if number_at(&self.ranks, parent.0) == 0 {
            self.lead_back(class, met);
        }
        Ok(())
    }

    fn is_last_open(&self, class: u32) -> bool {
        match self.open.last() {
            Some(last) => *last == class,
            None => false,
        }
    }

    // All classes that were met since this one get its rank.
    fn rank_since(&mut self, class: u32, classes: &[ClassRow]) {
        self.rank = self.rank.saturating_add(2);
        let is_alone = self.is_last_open(class) && !names_itself(classes, class);
        let rank = if is_alone {
            self.rank
        } else {
            self.rank.saturating_add(1)
        };
        for _ in 0..classes.len() {
            let Some(other) = self.open.pop() else {
                return;
            };
            if let Some(row) = classes.get(other as usize) {
                put(&mut self.ranks, row.name.0, rank);
            }
            if other == class {
                return;
            }
        }
    }

    fn leave(&mut self, class: u32, classes: &[ClassRow]) {
        let back = number_at(&self.back, class);
        if back == number_at(&self.met, class) {
            self.rank_since(class, classes);
        }
        let Some(step) = self.path.last() else {
            return;
        };
        let below = step.class;
        self.lead_back(below, back);
    }

    // Goes on by one parent; false at the end of the way.
    fn advance(&mut self, classes: &[ClassRow]) -> Result<bool, AllocError> {
        let Some(step) = self.path.pop() else {
            return Ok(false);
        };
        let Some(class) = classes.get(step.class as usize) else {
            return Ok(true);
        };
        let Some(parent) = parent_at(class, step.next) else {
            self.leave(step.class, classes);
            return Ok(true);
        };
        self.path.push(Step {
            class: step.class,
            next: step.next.saturating_add(1),
        })?;
        if let Some(parent) = parent {
            self.look(step.class, parent)?;
        }
        Ok(true)
    }

    fn walk_from(&mut self, class: u32, classes: &[ClassRow]) -> Result<(), AllocError> {
        self.enter(class)?;
        for _ in 0..u64::MAX {
            if !self.advance(classes)? {
                return Ok(());
            }
        }
        Ok(())
    }
}

/// A rank for each type up to the last that names a class; 0 for one that names none.
pub fn rank_types(alloc: Global, classes: &[ClassRow]) -> Result<Vec<u32>, AllocError>
    requires { length classes.now < 2 ^ 32 }
{
    let class_of = class_table(alloc, classes)?;
    let mut walk = Walk {
        ranks: vec![in alloc; 0; class_of.len()]?,
        class_of,
        met: vec![in alloc; 0; classes.len()]?,
        back: vec![in alloc; 0; classes.len()]?,
        path: Vec::new(alloc),
        open: Vec::new(alloc),
        count: 0,
        rank: 0,
    };
    for c in 0..classes.len() {
        if number_at(&walk.met, c as u32) == 0 {
            walk.walk_from(c as u32, classes)?;
        }
    }
    Ok(walk.ranks)
}
